// Updates, each with what it makes of the document in the table's first line: the new one, or `same`; or
// its fault. `~FROM TO PATTERN~` stands for the pattern with each number from FROM up to below TO in the
// place of `#`, between commas.
pub(crate) const TABLES: [&str; 10] = [
    OF_ORDER,
    MORE_OF_ORDER,
    OF_LISTS,
    OF_LONGER,
    OF_KINDS,
    UNREADABLE,
    OF_MANY,
    OF_WIDE,
    OF_LONG,
    OF_HALF,
];

// Of an order.
const OF_ORDER: &str =
    r#"{"_id":"o","customer":{"name":"Ada","city":"London"},"items":[{"sku":"A-1","qty":2,"price":19.99},{"sku":"B-7","qty":1,"price":5}],"placed":{"$date":1700000000000},"paid":false,"note":null,"tags":[],"n":-1.5}
{} => same
{"$set":{}} => same
{"$set":{"paid":true}} => {"_id":"o","customer":{"name":"Ada","city":"London"},"items":[{"sku":"A-1","qty":2,"price":19.99},{"sku":"B-7","qty":1,"price":5}],"placed":{"$date":1700000000000},"paid":true,"note":null,"tags":[],"n":-1.5}
{"$set":{"paid":false}} => same
{"$set":{"customer.city":"Paris"}} => {"_id":"o","customer":{"name":"Ada","city":"Paris"},"items":[{"sku":"A-1","qty":2,"price":19.99},{"sku":"B-7","qty":1,"price":5}],"placed":{"$date":1700000000000},"paid":false,"note":null,"tags":[],"n":-1.5}
{"$set":{"customer.city":"London"}} => same
{"$set":{"customer.zip":"N1"}} => {"_id":"o","customer":{"name":"Ada","city":"London","zip":"N1"},"items":[{"sku":"A-1","qty":2,"price":19.99},{"sku":"B-7","qty":1,"price":5}],"placed":{"$date":1700000000000},"paid":false,"note":null,"tags":[],"n":-1.5}
{"$set":{"customer":{"name":"Ada","city":"London"}}} => same
{"$set":{"customer":{"city":"London","name":"Ada"}}} => {"_id":"o","customer":{"city":"London","name":"Ada"},"items":[{"sku":"A-1","qty":2,"price":19.99},{"sku":"B-7","qty":1,"price":5}],"placed":{"$date":1700000000000},"paid":false,"note":null,"tags":[],"n":-1.5}
{"$set":{"ship.to.city":"Oslo"}} => {"_id":"o","customer":{"name":"Ada","city":"London"},"items":[{"sku":"A-1","qty":2,"price":19.99},{"sku":"B-7","qty":1,"price":5}],"placed":{"$date":1700000000000},"paid":false,"note":null,"tags":[],"n":-1.5,"ship":{"to":{"city":"Oslo"}}}
{"$set":{"items.0.qty":3}} => {"_id":"o","customer":{"name":"Ada","city":"London"},"items":[{"sku":"A-1","qty":3,"price":19.99},{"sku":"B-7","qty":1,"price":5}],"placed":{"$date":1700000000000},"paid":false,"note":null,"tags":[],"n":-1.5}
{"$set":{"items.1":{"sku":"C-9"}}} => {"_id":"o","customer":{"name":"Ada","city":"London"},"items":[{"sku":"A-1","qty":2,"price":19.99},{"sku":"C-9"}],"placed":{"$date":1700000000000},"paid":false,"note":null,"tags":[],"n":-1.5}
{"$set":{"items.2":"last"}} => {"_id":"o","customer":{"name":"Ada","city":"London"},"items":[{"sku":"A-1","qty":2,"price":19.99},{"sku":"B-7","qty":1,"price":5},"last"],"placed":{"$date":1700000000000},"paid":false,"note":null,"tags":[],"n":-1.5}
{"$set":{"items.4.sku":"E-2"}} => {"_id":"o","customer":{"name":"Ada","city":"London"},"items":[{"sku":"A-1","qty":2,"price":19.99},{"sku":"B-7","qty":1,"price":5},null,null,{"sku":"E-2"}],"placed":{"$date":1700000000000},"paid":false,"note":null,"tags":[],"n":-1.5}
{"$set":{"tags.0":"new"}} => {"_id":"o","customer":{"name":"Ada","city":"London"},"items":[{"sku":"A-1","qty":2,"price":19.99},{"sku":"B-7","qty":1,"price":5}],"placed":{"$date":1700000000000},"paid":false,"note":null,"tags":["new"],"n":-1.5}
{"$set":{"tags.2":"far"}} => {"_id":"o","customer":{"name":"Ada","city":"London"},"items":[{"sku":"A-1","qty":2,"price":19.99},{"sku":"B-7","qty":1,"price":5}],"placed":{"$date":1700000000000},"paid":false,"note":null,"tags":[null,null,"far"],"n":-1.5}
{"$set":{"note":null}} => same
{"$set":{"note":0}} => {"_id":"o","customer":{"name":"Ada","city":"London"},"items":[{"sku":"A-1","qty":2,"price":19.99},{"sku":"B-7","qty":1,"price":5}],"placed":{"$date":1700000000000},"paid":false,"note":0,"tags":[],"n":-1.5}
{"$set":{"placed":{"$date":1700000000000}}} => same
{"$set":{"placed":1700000000000}} => {"_id":"o","customer":{"name":"Ada","city":"London"},"items":[{"sku":"A-1","qty":2,"price":19.99},{"sku":"B-7","qty":1,"price":5}],"placed":1700000000000,"paid":false,"note":null,"tags":[],"n":-1.5}
{"$set":{"n":-1.50}} => same
{"$set":{"n":-0}} => {"_id":"o","customer":{"name":"Ada","city":"London"},"items":[{"sku":"A-1","qty":2,"price":19.99},{"sku":"B-7","qty":1,"price":5}],"placed":{"$date":1700000000000},"paid":false,"note":null,"tags":[],"n":0}
{"$set":{"x-1_Y":[{"a":[]},{}]}} => {"_id":"o","customer":{"name":"Ada","city":"London"},"items":[{"sku":"A-1","qty":2,"price":19.99},{"sku":"B-7","qty":1,"price":5}],"placed":{"$date":1700000000000},"paid":false,"note":null,"tags":[],"n":-1.5,"x-1_Y":[{"a":[]},{}]}
{"$set":{"0":1,"00":2}} => {"_id":"o","customer":{"name":"Ada","city":"London"},"items":[{"sku":"A-1","qty":2,"price":19.99},{"sku":"B-7","qty":1,"price":5}],"placed":{"$date":1700000000000},"paid":false,"note":null,"tags":[],"n":-1.5,"0":1,"00":2}
{"$inc":{"items.0.qty":1},"$set":{"paid":true}} => {"_id":"o","customer":{"name":"Ada","city":"London"},"items":[{"sku":"A-1","qty":3,"price":19.99},{"sku":"B-7","qty":1,"price":5}],"placed":{"$date":1700000000000},"paid":true,"note":null,"tags":[],"n":-1.5}
{"$set":{"paid":true},"$inc":{"items.0.qty":1}} => {"_id":"o","customer":{"name":"Ada","city":"London"},"items":[{"sku":"A-1","qty":3,"price":19.99},{"sku":"B-7","qty":1,"price":5}],"placed":{"$date":1700000000000},"paid":true,"note":null,"tags":[],"n":-1.5}
{"$inc":{"n":1.5}} => {"_id":"o","customer":{"name":"Ada","city":"London"},"items":[{"sku":"A-1","qty":2,"price":19.99},{"sku":"B-7","qty":1,"price":5}],"placed":{"$date":1700000000000},"paid":false,"note":null,"tags":[],"n":0}
{"$inc":{"n":0}} => same
{"$inc":{"n":-0.000000000000000001}} => {"_id":"o","customer":{"name":"Ada","city":"London"},"items":[{"sku":"A-1","qty":2,"price":19.99},{"sku":"B-7","qty":1,"price":5}],"placed":{"$date":1700000000000},"paid":false,"note":null,"tags":[],"n":-1.500000000000000001}
{"$inc":{"visits":1}} => {"_id":"o","customer":{"name":"Ada","city":"London"},"items":[{"sku":"A-1","qty":2,"price":19.99},{"sku":"B-7","qty":1,"price":5}],"placed":{"$date":1700000000000},"paid":false,"note":null,"tags":[],"n":-1.5,"visits":1}
{"$inc":{"visits":0}} => {"_id":"o","customer":{"name":"Ada","city":"London"},"items":[{"sku":"A-1","qty":2,"price":19.99},{"sku":"B-7","qty":1,"price":5}],"placed":{"$date":1700000000000},"paid":false,"note":null,"tags":[],"n":-1.5,"visits":0}
{"$inc":{"customer.visits":2.5}} => {"_id":"o","customer":{"name":"Ada","city":"London","visits":2.5},"items":[{"sku":"A-1","qty":2,"price":19.99},{"sku":"B-7","qty":1,"price":5}],"placed":{"$date":1700000000000},"paid":false,"note":null,"tags":[],"n":-1.5}
{"$inc":{"items.0.price":0.01}} => {"_id":"o","customer":{"name":"Ada","city":"London"},"items":[{"sku":"A-1","qty":2,"price":20},{"sku":"B-7","qty":1,"price":5}],"placed":{"$date":1700000000000},"paid":false,"note":null,"tags":[],"n":-1.5}
{"$inc":{"items.3.qty":1}} => {"_id":"o","customer":{"name":"Ada","city":"London"},"items":[{"sku":"A-1","qty":2,"price":19.99},{"sku":"B-7","qty":1,"price":5},null,{"qty":1}],"placed":{"$date":1700000000000},"paid":false,"note":null,"tags":[],"n":-1.5}
{"$mul":{"n":2}} => {"_id":"o","customer":{"name":"Ada","city":"London"},"items":[{"sku":"A-1","qty":2,"price":19.99},{"sku":"B-7","qty":1,"price":5}],"placed":{"$date":1700000000000},"paid":false,"note":null,"tags":[],"n":-3}
{"$mul":{"n":1}} => same
{"$mul":{"n":0}} => {"_id":"o","customer":{"name":"Ada","city":"London"},"items":[{"sku":"A-1","qty":2,"price":19.99},{"sku":"B-7","qty":1,"price":5}],"placed":{"$date":1700000000000},"paid":false,"note":null,"tags":[],"n":0}
{"$mul":{"items.0.price":100}} => {"_id":"o","customer":{"name":"Ada","city":"London"},"items":[{"sku":"A-1","qty":2,"price":1999},{"sku":"B-7","qty":1,"price":5}],"placed":{"$date":1700000000000},"paid":false,"note":null,"tags":[],"n":-1.5}
{"$mul":{"visits":7}} => {"_id":"o","customer":{"name":"Ada","city":"London"},"items":[{"sku":"A-1","qty":2,"price":19.99},{"sku":"B-7","qty":1,"price":5}],"placed":{"$date":1700000000000},"paid":false,"note":null,"tags":[],"n":-1.5,"visits":0}
{"$mul":{"items.1.price":0.1,"items.0.qty":-3}} => {"_id":"o","customer":{"name":"Ada","city":"London"},"items":[{"sku":"A-1","qty":-6,"price":19.99},{"sku":"B-7","qty":1,"price":0.5}],"placed":{"$date":1700000000000},"paid":false,"note":null,"tags":[],"n":-1.5}"#;

// Of the order, with the other operators.
const MORE_OF_ORDER: &str =
    r#"{"_id":"o","customer":{"name":"Ada","city":"London"},"items":[{"sku":"A-1","qty":2,"price":19.99},{"sku":"B-7","qty":1,"price":5}],"placed":{"$date":1700000000000},"paid":false,"note":null,"tags":[],"n":-1.5}
{"$min":{"n":-2}} => {"_id":"o","customer":{"name":"Ada","city":"London"},"items":[{"sku":"A-1","qty":2,"price":19.99},{"sku":"B-7","qty":1,"price":5}],"placed":{"$date":1700000000000},"paid":false,"note":null,"tags":[],"n":-2}
{"$min":{"n":-1.5}} => same
{"$min":{"n":-1}} => same
{"$max":{"n":-1}} => {"_id":"o","customer":{"name":"Ada","city":"London"},"items":[{"sku":"A-1","qty":2,"price":19.99},{"sku":"B-7","qty":1,"price":5}],"placed":{"$date":1700000000000},"paid":false,"note":null,"tags":[],"n":-1}
{"$max":{"n":-2}} => same
{"$min":{"rank":7},"$max":{"top":7}} => {"_id":"o","customer":{"name":"Ada","city":"London"},"items":[{"sku":"A-1","qty":2,"price":19.99},{"sku":"B-7","qty":1,"price":5}],"placed":{"$date":1700000000000},"paid":false,"note":null,"tags":[],"n":-1.5,"rank":7,"top":7}
{"$min":{"placed":{"$date":1699999999999}}} => {"_id":"o","customer":{"name":"Ada","city":"London"},"items":[{"sku":"A-1","qty":2,"price":19.99},{"sku":"B-7","qty":1,"price":5}],"placed":{"$date":1699999999999},"paid":false,"note":null,"tags":[],"n":-1.5}
{"$max":{"placed":{"$date":1699999999999}}} => same
{"$max":{"customer.name":"Ada M"}} => {"_id":"o","customer":{"name":"Ada M","city":"London"},"items":[{"sku":"A-1","qty":2,"price":19.99},{"sku":"B-7","qty":1,"price":5}],"placed":{"$date":1700000000000},"paid":false,"note":null,"tags":[],"n":-1.5}
{"$min":{"customer.name":"Ada M"}} => same
{"$unset":{"note":1}} => {"_id":"o","customer":{"name":"Ada","city":"London"},"items":[{"sku":"A-1","qty":2,"price":19.99},{"sku":"B-7","qty":1,"price":5}],"placed":{"$date":1700000000000},"paid":false,"tags":[],"n":-1.5}
{"$unset":{"note":{"$any":[1]}}} => {"_id":"o","customer":{"name":"Ada","city":"London"},"items":[{"sku":"A-1","qty":2,"price":19.99},{"sku":"B-7","qty":1,"price":5}],"placed":{"$date":1700000000000},"paid":false,"tags":[],"n":-1.5}
{"$unset":{"missing":1,"customer.missing":1,"items.9":1,"paid.x":1}} => same
{"$unset":{"customer.name":"","items.0.sku":null}} => {"_id":"o","customer":{"city":"London"},"items":[{"qty":2,"price":19.99},{"sku":"B-7","qty":1,"price":5}],"placed":{"$date":1700000000000},"paid":false,"note":null,"tags":[],"n":-1.5}
{"$unset":{"items.0":1}} => {"_id":"o","customer":{"name":"Ada","city":"London"},"items":[null,{"sku":"B-7","qty":1,"price":5}],"placed":{"$date":1700000000000},"paid":false,"note":null,"tags":[],"n":-1.5}
{"$unset":{"customer":1,"items":1,"placed":1,"paid":1,"note":1,"tags":1,"n":1}} => {"_id":"o"}
{"$rename":{"customer.name":"customer.full"}} => {"_id":"o","customer":{"city":"London","full":"Ada"},"items":[{"sku":"A-1","qty":2,"price":19.99},{"sku":"B-7","qty":1,"price":5}],"placed":{"$date":1700000000000},"paid":false,"note":null,"tags":[],"n":-1.5}
{"$rename":{"customer":"client"}} => {"_id":"o","items":[{"sku":"A-1","qty":2,"price":19.99},{"sku":"B-7","qty":1,"price":5}],"placed":{"$date":1700000000000},"paid":false,"note":null,"tags":[],"n":-1.5,"client":{"name":"Ada","city":"London"}}
{"$rename":{"missing":"other"}} => same
{"$rename":{"note":"paid"}} => {"_id":"o","customer":{"name":"Ada","city":"London"},"items":[{"sku":"A-1","qty":2,"price":19.99},{"sku":"B-7","qty":1,"price":5}],"placed":{"$date":1700000000000},"paid":null,"tags":[],"n":-1.5}
{"$rename":{"items.0":"first"}} => {"_id":"o","customer":{"name":"Ada","city":"London"},"items":[null,{"sku":"B-7","qty":1,"price":5}],"placed":{"$date":1700000000000},"paid":false,"note":null,"tags":[],"n":-1.5,"first":{"sku":"A-1","qty":2,"price":19.99}}
{"$rename":{"items.0.qty":"items.1.qty"}} => {"_id":"o","customer":{"name":"Ada","city":"London"},"items":[{"sku":"A-1","price":19.99},{"sku":"B-7","qty":2,"price":5}],"placed":{"$date":1700000000000},"paid":false,"note":null,"tags":[],"n":-1.5}
{"$rename":{"n":"tags.3"}} => {"_id":"o","customer":{"name":"Ada","city":"London"},"items":[{"sku":"A-1","qty":2,"price":19.99},{"sku":"B-7","qty":1,"price":5}],"placed":{"$date":1700000000000},"paid":false,"note":null,"tags":[null,null,null,-1.5]}
{"$rename":{"n":"deep.er.still"}} => {"_id":"o","customer":{"name":"Ada","city":"London"},"items":[{"sku":"A-1","qty":2,"price":19.99},{"sku":"B-7","qty":1,"price":5}],"placed":{"$date":1700000000000},"paid":false,"note":null,"tags":[],"deep":{"er":{"still":-1.5}}}
{"$push":{"tags":"a"}} => {"_id":"o","customer":{"name":"Ada","city":"London"},"items":[{"sku":"A-1","qty":2,"price":19.99},{"sku":"B-7","qty":1,"price":5}],"placed":{"$date":1700000000000},"paid":false,"note":null,"tags":["a"],"n":-1.5}
{"$push":{"tags":{"$each":["a","b"]}}} => {"_id":"o","customer":{"name":"Ada","city":"London"},"items":[{"sku":"A-1","qty":2,"price":19.99},{"sku":"B-7","qty":1,"price":5}],"placed":{"$date":1700000000000},"paid":false,"note":null,"tags":["a","b"],"n":-1.5}
{"$push":{"tags":{"a":1}}} => {"_id":"o","customer":{"name":"Ada","city":"London"},"items":[{"sku":"A-1","qty":2,"price":19.99},{"sku":"B-7","qty":1,"price":5}],"placed":{"$date":1700000000000},"paid":false,"note":null,"tags":[{"a":1}],"n":-1.5}
{"$push":{"tags":[1,2]}} => {"_id":"o","customer":{"name":"Ada","city":"London"},"items":[{"sku":"A-1","qty":2,"price":19.99},{"sku":"B-7","qty":1,"price":5}],"placed":{"$date":1700000000000},"paid":false,"note":null,"tags":[[1,2]],"n":-1.5}
{"$push":{"items":{"$each":[{"sku":"Z"}],"$position":1}}} => {"_id":"o","customer":{"name":"Ada","city":"London"},"items":[{"sku":"A-1","qty":2,"price":19.99},{"sku":"Z"},{"sku":"B-7","qty":1,"price":5}],"placed":{"$date":1700000000000},"paid":false,"note":null,"tags":[],"n":-1.5}
{"$push":{"new.list":1}} => {"_id":"o","customer":{"name":"Ada","city":"London"},"items":[{"sku":"A-1","qty":2,"price":19.99},{"sku":"B-7","qty":1,"price":5}],"placed":{"$date":1700000000000},"paid":false,"note":null,"tags":[],"n":-1.5,"new":{"list":[1]}}
{"$push":{"new":{"$each":[]}}} => {"_id":"o","customer":{"name":"Ada","city":"London"},"items":[{"sku":"A-1","qty":2,"price":19.99},{"sku":"B-7","qty":1,"price":5}],"placed":{"$date":1700000000000},"paid":false,"note":null,"tags":[],"n":-1.5,"new":[]}
{"$push":{"tags":{"$each":[]}}} => same
{"$push":{"items.0.codes":{"$each":[1,1],"$position":5}}} => {"_id":"o","customer":{"name":"Ada","city":"London"},"items":[{"sku":"A-1","qty":2,"price":19.99,"codes":[1,1]},{"sku":"B-7","qty":1,"price":5}],"placed":{"$date":1700000000000},"paid":false,"note":null,"tags":[],"n":-1.5}
{"$pop":{"tags":1}} => same
{"$pop":{"items":1}} => {"_id":"o","customer":{"name":"Ada","city":"London"},"items":[{"sku":"A-1","qty":2,"price":19.99}],"placed":{"$date":1700000000000},"paid":false,"note":null,"tags":[],"n":-1.5}
{"$pop":{"items":-1}} => {"_id":"o","customer":{"name":"Ada","city":"London"},"items":[{"sku":"B-7","qty":1,"price":5}],"placed":{"$date":1700000000000},"paid":false,"note":null,"tags":[],"n":-1.5}
{"$pop":{"missing":1,"customer.none":-1}} => same
{"$addToSet":{"tags":"a"}} => {"_id":"o","customer":{"name":"Ada","city":"London"},"items":[{"sku":"A-1","qty":2,"price":19.99},{"sku":"B-7","qty":1,"price":5}],"placed":{"$date":1700000000000},"paid":false,"note":null,"tags":["a"],"n":-1.5}
{"$addToSet":{"items":{"sku":"B-7","qty":1,"price":5.0}}} => same
{"$addToSet":{"items":{"qty":1,"sku":"B-7","price":5}}} => {"_id":"o","customer":{"name":"Ada","city":"London"},"items":[{"sku":"A-1","qty":2,"price":19.99},{"sku":"B-7","qty":1,"price":5},{"qty":1,"sku":"B-7","price":5}],"placed":{"$date":1700000000000},"paid":false,"note":null,"tags":[],"n":-1.5}
{"$addToSet":{"tags":{"$each":["a","b","a",1,"1",1.0]}}} => {"_id":"o","customer":{"name":"Ada","city":"London"},"items":[{"sku":"A-1","qty":2,"price":19.99},{"sku":"B-7","qty":1,"price":5}],"placed":{"$date":1700000000000},"paid":false,"note":null,"tags":["a","b",1,"1"],"n":-1.5}
{"$addToSet":{"fresh":{"$each":[null,null,false]}}} => {"_id":"o","customer":{"name":"Ada","city":"London"},"items":[{"sku":"A-1","qty":2,"price":19.99},{"sku":"B-7","qty":1,"price":5}],"placed":{"$date":1700000000000},"paid":false,"note":null,"tags":[],"n":-1.5,"fresh":[null,false]}
{"$addToSet":{"fresh":[]}} => {"_id":"o","customer":{"name":"Ada","city":"London"},"items":[{"sku":"A-1","qty":2,"price":19.99},{"sku":"B-7","qty":1,"price":5}],"placed":{"$date":1700000000000},"paid":false,"note":null,"tags":[],"n":-1.5,"fresh":[[]]}
{"$currentDate":{"placed":true}} => {"_id":"o","customer":{"name":"Ada","city":"London"},"items":[{"sku":"A-1","qty":2,"price":19.99},{"sku":"B-7","qty":1,"price":5}],"placed":{"$date":1700000000001},"paid":false,"note":null,"tags":[],"n":-1.5}
{"$currentDate":{"seen.at":true,"tags.0":true}} => {"_id":"o","customer":{"name":"Ada","city":"London"},"items":[{"sku":"A-1","qty":2,"price":19.99},{"sku":"B-7","qty":1,"price":5}],"placed":{"$date":1700000000000},"paid":false,"note":null,"tags":[{"$date":1700000000001}],"n":-1.5,"seen":{"at":{"$date":1700000000001}}}
{"$setOnInsert":{"paid":true,"made":1}} => same
{"$set":{"a":1},"$unset":{"b":1},"$inc":{"c":1},"$mul":{"d":1},"$min":{"e":1},"$max":{"f":1},"$rename":{"note":"g"},"$push":{"h":1},"$pop":{"tags":1},"$addToSet":{"i":1},"$setOnInsert":{"j":1},"$currentDate":{"k":true}} => {"_id":"o","customer":{"name":"Ada","city":"London"},"items":[{"sku":"A-1","qty":2,"price":19.99},{"sku":"B-7","qty":1,"price":5}],"placed":{"$date":1700000000000},"paid":false,"tags":[],"n":-1.5,"a":1,"c":1,"d":0,"e":1,"f":1,"g":null,"h":[1],"i":[1],"k":{"$date":1700000000001}}
{"$currentDate":{"k":true},"$addToSet":{"i":1},"$push":{"h":1},"$max":{"f":1},"$inc":{"c":1},"$set":{"a":1}} => {"_id":"o","customer":{"name":"Ada","city":"London"},"items":[{"sku":"A-1","qty":2,"price":19.99},{"sku":"B-7","qty":1,"price":5}],"placed":{"$date":1700000000000},"paid":false,"note":null,"tags":[],"n":-1.5,"a":1,"c":1,"f":1,"h":[1],"i":[1],"k":{"$date":1700000000001}}
{"$rename":{"paid":"open"},"$set":{"customer.paid":true}} => {"_id":"o","customer":{"name":"Ada","city":"London","paid":true},"items":[{"sku":"A-1","qty":2,"price":19.99},{"sku":"B-7","qty":1,"price":5}],"placed":{"$date":1700000000000},"note":null,"tags":[],"n":-1.5,"open":false}
{"$set":{"items.1.qty":1,"paid":false,"tags":[]},"$inc":{"n":0},"$addToSet":{"lot":{"sku":"A-1","qty":2,"price":19.99}}} => {"_id":"o","customer":{"name":"Ada","city":"London"},"items":[{"sku":"A-1","qty":2,"price":19.99},{"sku":"B-7","qty":1,"price":5}],"placed":{"$date":1700000000000},"paid":false,"note":null,"tags":[],"n":-1.5,"lot":[{"sku":"A-1","qty":2,"price":19.99}]}
{"$mul":{"n":0.000000000000000001}} => range n
{"$mul":{"items.0.price":0.0000000000000001}} => {"_id":"o","customer":{"name":"Ada","city":"London"},"items":[{"sku":"A-1","qty":2,"price":0.000000000000001999},{"sku":"B-7","qty":1,"price":5}],"placed":{"$date":1700000000000},"paid":false,"note":null,"tags":[],"n":-1.5}
{"$inc":{"items.0.sku":1}} => target items.0.sku
{"$inc":{"items.sku":1}} => target items.sku
{"$push":{"customer":1}} => target customer
{"$set":{"paid.x":1}} => target paid.x
{"$rename":{"customer.name":"tags.x"}} => target tags.x"#;

// Of lists and a large number.
const OF_LISTS: &str = r#"{"_id":"l","v":[1,2,3],"e":[],"m":10000000000000000000}
{"$push":{"v":{"$each":[8,9],"$position":-1}}} => {"_id":"l","v":[1,2,8,9,3],"e":[],"m":10000000000000000000}
{"$push":{"v":{"$position":-1,"$each":[8,9]}}} => {"_id":"l","v":[1,2,8,9,3],"e":[],"m":10000000000000000000}
{"$push":{"v":{"$each":[8,9],"$position":0}}} => {"_id":"l","v":[8,9,1,2,3],"e":[],"m":10000000000000000000}
{"$push":{"v":{"$each":[8,9],"$position":1}}} => {"_id":"l","v":[1,8,9,2,3],"e":[],"m":10000000000000000000}
{"$push":{"v":{"$each":[8,9],"$position":3}}} => {"_id":"l","v":[1,2,3,8,9],"e":[],"m":10000000000000000000}
{"$push":{"v":{"$each":[8,9],"$position":4}}} => {"_id":"l","v":[1,2,3,8,9],"e":[],"m":10000000000000000000}
{"$push":{"v":{"$each":[8,9],"$position":9223372036854775807}}} => {"_id":"l","v":[1,2,3,8,9],"e":[],"m":10000000000000000000}
{"$push":{"v":{"$each":[8,9],"$position":-3}}} => {"_id":"l","v":[8,9,1,2,3],"e":[],"m":10000000000000000000}
{"$push":{"v":{"$each":[8,9],"$position":-4}}} => {"_id":"l","v":[8,9,1,2,3],"e":[],"m":10000000000000000000}
{"$push":{"v":{"$each":[8,9],"$position":-9223372036854775808}}} => {"_id":"l","v":[8,9,1,2,3],"e":[],"m":10000000000000000000}
{"$push":{"v":{"$each":[8],"$position":2.0}}} => {"_id":"l","v":[1,2,8,3],"e":[],"m":10000000000000000000}
{"$push":{"v":{"$each":[8],"$position":-0}}} => {"_id":"l","v":[8,1,2,3],"e":[],"m":10000000000000000000}
{"$push":{"v":{"$each":[],"$position":1}}} => same
{"$push":{"v":1,"e":{"$each":[[],{}]}}} => {"_id":"l","v":[1,2,3,1],"e":[[],{}],"m":10000000000000000000}
{"$push":{"v":{"$date":5}}} => {"_id":"l","v":[1,2,3,{"$date":5}],"e":[],"m":10000000000000000000}
{"$addToSet":{"v":2}} => same
{"$addToSet":{"v":2.0}} => same
{"$addToSet":{"v":"2"}} => {"_id":"l","v":[1,2,3,"2"],"e":[],"m":10000000000000000000}
{"$addToSet":{"v":{"$each":[3,4,4,1]}}} => {"_id":"l","v":[1,2,3,4],"e":[],"m":10000000000000000000}
{"$addToSet":{"v":{"$each":[1,2,3,3,2,1,1,2,3]}}} => same
{"$addToSet":{"v":{"$each":[9,8,7,6,5,4,3,2,1,0,9,8,7]}}} => {"_id":"l","v":[1,2,3,9,8,7,6,5,4,0],"e":[],"m":10000000000000000000}
{"$addToSet":{"e":{"$each":[{"a":1,"b":2},{"b":2,"a":1},{"a":1,"b":2},[1],["1"],[1.0],1,true,"true",null,"null"]}}} => {"_id":"l","v":[1,2,3],"e":[{"a":1,"b":2},{"b":2,"a":1},[1],["1"],1,true,"true",null,"null"],"m":10000000000000000000}
{"$addToSet":{"v":{"$each":[]}}} => same
{"$addToSet":{"e":{"$each":[]}}} => same
{"$addToSet":{"e":{"$date":7}}} => {"_id":"l","v":[1,2,3],"e":[{"$date":7}],"m":10000000000000000000}
{"$pop":{"e":1}} => same
{"$pop":{"e":-1}} => same
{"$pop":{"v":1}} => {"_id":"l","v":[1,2],"e":[],"m":10000000000000000000}
{"$pop":{"v":-1}} => {"_id":"l","v":[2,3],"e":[],"m":10000000000000000000}
{"$pop":{"v":1.0}} => {"_id":"l","v":[1,2],"e":[],"m":10000000000000000000}
{"$pop":{"v":-1.000}} => {"_id":"l","v":[2,3],"e":[],"m":10000000000000000000}
{"$unset":{"m":1},"$rename":{"e":"k.n"}} => {"_id":"l","v":[1,2,3],"k":{"n":[]}}
{"$rename":{"v.0":"e.1"}} => {"_id":"l","v":[null,2,3],"e":[null,1],"m":10000000000000000000}
{"$unset":{"v.1":1}} => {"_id":"l","v":[1,null,3],"e":[],"m":10000000000000000000}
{"$unset":{"v.3":1,"v.01":1,"v.-1":1,"v.x":1}} => same
{"$set":{"v.1":"two"}} => {"_id":"l","v":[1,"two",3],"e":[],"m":10000000000000000000}
{"$set":{"v.3":4}} => {"_id":"l","v":[1,2,3,4],"e":[],"m":10000000000000000000}
{"$set":{"v.5":6}} => {"_id":"l","v":[1,2,3,null,null,6],"e":[],"m":10000000000000000000}
{"$set":{"v.3.a.0":4}} => {"_id":"l","v":[1,2,3,{"a":{"0":4}}],"e":[],"m":10000000000000000000}
{"$set":{"e.0.0.0":1}} => {"_id":"l","v":[1,2,3],"e":[{"0":{"0":1}}],"m":10000000000000000000}
{"$inc":{"v.0":0.5,"v.1":-2}} => {"_id":"l","v":[1.5,0,3],"e":[],"m":10000000000000000000}
{"$inc":{"m":89999999999999999999.999999999999999999}} => {"_id":"l","v":[1,2,3],"e":[],"m":99999999999999999999.999999999999999999}
{"$inc":{"m":-20000000000000000000}} => {"_id":"l","v":[1,2,3],"e":[],"m":-10000000000000000000}
{"$mul":{"m":9.9}} => {"_id":"l","v":[1,2,3],"e":[],"m":99000000000000000000}
{"$mul":{"m":-1}} => {"_id":"l","v":[1,2,3],"e":[],"m":-10000000000000000000}
{"$mul":{"m":0.000000000000000001}} => {"_id":"l","v":[1,2,3],"e":[],"m":10}
{"$mul":{"v.2":0.333333333333333333}} => {"_id":"l","v":[1,2,0.999999999999999999],"e":[],"m":10000000000000000000}
{"$set":{"v":[]},"$push":{"e":{"$each":[1,2,3]}}} => {"_id":"l","v":[],"e":[1,2,3],"m":10000000000000000000}
{"$mul":{"m":10000000000000000000}} => range m
{"$mul":{"m":10}} => range m
{"$mul":{"v.2":99999999999999999999.999999999999999999}} => range v.2
{"$inc":{"m":90000000000000000000}} => range m
{"$inc":{"m":89999999999999999999.999999999999999999,"v.0":1},"$push":{"m":1}} => overlap m m
{"$set":{"m.x":1}} => target m.x
{"$set":{"v.x":1}} => target v.x
{"$set":{"v.00":1}} => target v.00
{"$set":{"v.1000":1}} => target v.1000
{"$set":{"v.1.x":1}} => target v.1.x
{"$inc":{"v":1}} => target v
{"$mul":{"e":1}} => target e
{"$min":{"v":1}} => target v
{"$max":{"e":"z"}} => target e
{"$push":{"m":1}} => target m
{"$push":{"v.0":1}} => target v.0
{"$push":{"v.x":1}} => target v.x
{"$pop":{"m":1}} => target m
{"$pop":{"v.0":-1}} => target v.0
{"$addToSet":{"m":1}} => target m
{"$addToSet":{"v.1":{"$each":[]}}} => target v.1
{"$rename":{"m":"v.x"}} => target v.x
{"$rename":{"v.0":"m.n"}} => target m.n
{"$rename":{"e":"v.5000"}} => target v.5000
{"$currentDate":{"m.at":true}} => target m.at
{"$set":{"a":1},"$inc":{"e":1,"m":90000000000000000000}} => target e
{"$mul":{"m":10},"$inc":{"v":1}} => target v
{"$push":{"v":1},"$pop":{"m":1},"$min":{"e":0}} => target e"#;

// Of the list with two more elements.
const OF_LONGER: &str = r#"{"_id":"l","v":[1,2,8,9,3],"e":[],"m":10000000000000000000}
{"$addToSet":{"v":2}} => same
{"$pop":{"e":1}} => same
{"$mul":{"m":10000000000000000000}} => range m
{"$unset":{"m":1},"$rename":{"e":"k.n"}} => {"_id":"l","v":[1,2,8,9,3],"k":{"n":[]}}"#;

// Of values of each kind.
const OF_KINDS: &str =
    r#"{"_id":1,"z":null,"b":true,"f":false,"n":5,"t":"m","d":{"$date":0},"l":[1,"a",{"x":1},[2],null],"o":{"x":1,"y":{"z":2}}}
{"$min":{"n":null}} => {"_id":1,"z":null,"b":true,"f":false,"n":null,"t":"m","d":{"$date":0},"l":[1,"a",{"x":1},[2],null],"o":{"x":1,"y":{"z":2}}}
{"$max":{"n":null}} => same
{"$min":{"n":"a"}} => same
{"$max":{"n":"a"}} => {"_id":1,"z":null,"b":true,"f":false,"n":"a","t":"m","d":{"$date":0},"l":[1,"a",{"x":1},[2],null],"o":{"x":1,"y":{"z":2}}}
{"$min":{"t":9}} => {"_id":1,"z":null,"b":true,"f":false,"n":5,"t":9,"d":{"$date":0},"l":[1,"a",{"x":1},[2],null],"o":{"x":1,"y":{"z":2}}}
{"$max":{"t":9}} => same
{"$min":{"t":true}} => same
{"$max":{"t":true}} => {"_id":1,"z":null,"b":true,"f":false,"n":5,"t":true,"d":{"$date":0},"l":[1,"a",{"x":1},[2],null],"o":{"x":1,"y":{"z":2}}}
{"$min":{"b":{"$date":-1}}} => same
{"$max":{"b":{"$date":-1}}} => {"_id":1,"z":null,"b":{"$date":-1},"f":false,"n":5,"t":"m","d":{"$date":0},"l":[1,"a",{"x":1},[2],null],"o":{"x":1,"y":{"z":2}}}
{"$min":{"d":false}} => {"_id":1,"z":null,"b":true,"f":false,"n":5,"t":"m","d":false,"l":[1,"a",{"x":1},[2],null],"o":{"x":1,"y":{"z":2}}}
{"$max":{"d":false}} => same
{"$min":{"b":false}} => {"_id":1,"z":null,"b":false,"f":false,"n":5,"t":"m","d":{"$date":0},"l":[1,"a",{"x":1},[2],null],"o":{"x":1,"y":{"z":2}}}
{"$max":{"b":false}} => same
{"$min":{"f":true}} => same
{"$max":{"f":true}} => {"_id":1,"z":null,"b":true,"f":true,"n":5,"t":"m","d":{"$date":0},"l":[1,"a",{"x":1},[2],null],"o":{"x":1,"y":{"z":2}}}
{"$min":{"z":-1}} => same
{"$max":{"z":-1}} => {"_id":1,"z":-1,"b":true,"f":false,"n":5,"t":"m","d":{"$date":0},"l":[1,"a",{"x":1},[2],null],"o":{"x":1,"y":{"z":2}}}
{"$max":{"z":null}} => same
{"$min":{"t":"M"}} => {"_id":1,"z":null,"b":true,"f":false,"n":5,"t":"M","d":{"$date":0},"l":[1,"a",{"x":1},[2],null],"o":{"x":1,"y":{"z":2}}}
{"$max":{"t":"mm"}} => {"_id":1,"z":null,"b":true,"f":false,"n":5,"t":"mm","d":{"$date":0},"l":[1,"a",{"x":1},[2],null],"o":{"x":1,"y":{"z":2}}}
{"$min":{"t":""}} => {"_id":1,"z":null,"b":true,"f":false,"n":5,"t":"","d":{"$date":0},"l":[1,"a",{"x":1},[2],null],"o":{"x":1,"y":{"z":2}}}
{"$max":{"t":"é"}} => {"_id":1,"z":null,"b":true,"f":false,"n":5,"t":"é","d":{"$date":0},"l":[1,"a",{"x":1},[2],null],"o":{"x":1,"y":{"z":2}}}
{"$min":{"l.0":0,"l.1":"b"}} => {"_id":1,"z":null,"b":true,"f":false,"n":5,"t":"m","d":{"$date":0},"l":[0,"a",{"x":1},[2],null],"o":{"x":1,"y":{"z":2}}}
{"$max":{"l.0":0,"l.1":"b"}} => {"_id":1,"z":null,"b":true,"f":false,"n":5,"t":"m","d":{"$date":0},"l":[1,"b",{"x":1},[2],null],"o":{"x":1,"y":{"z":2}}}
{"$set":{"o.y.z":2}} => same
{"$set":{"o.y.w":2}} => {"_id":1,"z":null,"b":true,"f":false,"n":5,"t":"m","d":{"$date":0},"l":[1,"a",{"x":1},[2],null],"o":{"x":1,"y":{"z":2,"w":2}}}
{"$set":{"l.3.1":3}} => {"_id":1,"z":null,"b":true,"f":false,"n":5,"t":"m","d":{"$date":0},"l":[1,"a",{"x":1},[2,3],null],"o":{"x":1,"y":{"z":2}}}
{"$set":{"l.2.x":{"y":[]}}} => {"_id":1,"z":null,"b":true,"f":false,"n":5,"t":"m","d":{"$date":0},"l":[1,"a",{"x":{"y":[]}},[2],null],"o":{"x":1,"y":{"z":2}}}
{"$unset":{"l.4":1}} => same
{"$unset":{"l.3.0":1}} => {"_id":1,"z":null,"b":true,"f":false,"n":5,"t":"m","d":{"$date":0},"l":[1,"a",{"x":1},[null],null],"o":{"x":1,"y":{"z":2}}}
{"$unset":{"o.y.z":1}} => {"_id":1,"z":null,"b":true,"f":false,"n":5,"t":"m","d":{"$date":0},"l":[1,"a",{"x":1},[2],null],"o":{"x":1,"y":{}}}
{"$rename":{"l.4":"z"}} => same
{"$rename":{"o.y":"o.x"}} => {"_id":1,"z":null,"b":true,"f":false,"n":5,"t":"m","d":{"$date":0},"l":[1,"a",{"x":1},[2],null],"o":{"x":{"z":2}}}
{"$rename":{"o.x":"o.y.x"}} => {"_id":1,"z":null,"b":true,"f":false,"n":5,"t":"m","d":{"$date":0},"l":[1,"a",{"x":1},[2],null],"o":{"y":{"z":2,"x":1}}}
{"$addToSet":{"l":{"$each":[{"x":1.0},[2],null,"a",1,[2,2]]}}} => {"_id":1,"z":null,"b":true,"f":false,"n":5,"t":"m","d":{"$date":0},"l":[1,"a",{"x":1},[2],null,[2,2]],"o":{"x":1,"y":{"z":2}}}
{"$addToSet":{"l":{"$each":[{"x":1},[2],null,"a",1,1.0,[2.0],{"x":1.000},"a",null]}}} => same
{"$push":{"l":null}} => {"_id":1,"z":null,"b":true,"f":false,"n":5,"t":"m","d":{"$date":0},"l":[1,"a",{"x":1},[2],null,null],"o":{"x":1,"y":{"z":2}}}
{"$push":{"l.3":{"$each":[0],"$position":0}}} => {"_id":1,"z":null,"b":true,"f":false,"n":5,"t":"m","d":{"$date":0},"l":[1,"a",{"x":1},[0,2],null],"o":{"x":1,"y":{"z":2}}}
{"$pop":{"l":-1}} => {"_id":1,"z":null,"b":true,"f":false,"n":5,"t":"m","d":{"$date":0},"l":["a",{"x":1},[2],null],"o":{"x":1,"y":{"z":2}}}
{"$pop":{"l.3":1}} => {"_id":1,"z":null,"b":true,"f":false,"n":5,"t":"m","d":{"$date":0},"l":[1,"a",{"x":1},[],null],"o":{"x":1,"y":{"z":2}}}
{"$currentDate":{"d":true}} => {"_id":1,"z":null,"b":true,"f":false,"n":5,"t":"m","d":{"$date":1700000000001},"l":[1,"a",{"x":1},[2],null],"o":{"x":1,"y":{"z":2}}}
{"$currentDate":{"o":true}} => {"_id":1,"z":null,"b":true,"f":false,"n":5,"t":"m","d":{"$date":0},"l":[1,"a",{"x":1},[2],null],"o":{"$date":1700000000001}}
{"$inc":{"t":1}} => target t
{"$inc":{"z":1}} => target z
{"$inc":{"b":1}} => target b
{"$inc":{"d":1}} => target d
{"$inc":{"o":1}} => target o
{"$mul":{"t":0}} => target t
{"$min":{"o":null}} => target o
{"$max":{"l":null}} => target l
{"$push":{"t":"x"}} => target t
{"$push":{"z":"x"}} => target z
{"$pop":{"o":1}} => target o
{"$addToSet":{"n":5}} => target n
{"$set":{"n.x":1}} => target n.x
{"$set":{"t.0":1}} => target t.0
{"$set":{"z.x":1}} => target z.x
{"$set":{"d.x":1}} => target d.x"#;

// Refused before any document is looked at.
const UNREADABLE: &str = r#"{"_id":"s","a":1}
[] => unknown 
null => unknown 
"$set" => unknown 
7 => unknown 
{"$date":5} => unknown 
{"$date":1.5} => unknown $date
{"a":1} => unknown a
{"":{}} => unknown 
{"$set":{"b":1},"set":{"c":1}} => unknown set
{"$Set":{"b":1}} => unknown $Set
{"$sort":{"a":1},"$near":{"a":1}} => unknown $sort
{"$pop":{"a":2},"$sort":1} => unknown $sort
{"$set":1} => bad $set 
{"$set":[]} => bad $set 
{"$set":{"$date":5}} => bad $set 
{"$inc":5,"$unset":{"a..b":1}} => bad $unset a..b
{"$inc":5,"$push":{"a..b":1}} => bad $inc 
{"$unset":5,"$set":{"b":{"$c":1}}} => bad $set b
{"$inc":{"a":"x"},"$set":{"b":{"$c":1}}} => bad $set b
{"$set":{"b":1,"":2,"c.":3}} => bad $set 
{"$set":{".b":1}} => bad $set .b
{"$set":{"b.":1}} => bad $set b.
{"$set":{"b..c":1}} => bad $set b..c
{"$set":{"b c":1}} => bad $set b c
{"$set":{"$b":1}} => bad $set $b
{"$set":{"b":{"":1}}} => bad $set b
{"$set":{"b":[{"c.d":1}]}} => bad $set b
{"$set":{"b":{"c":{"$date":"x"}}}} => bad $set b
{"$set":{"b":{"é":1}}} => bad $set b
{"$unset":{"b c":1}} => bad $unset b c
{"$inc":{"b":null}} => bad $inc b
{"$inc":{"b":true}} => bad $inc b
{"$inc":{"b":{"$date":1}}} => bad $inc b
{"$mul":{"b":"2"}} => bad $mul b
{"$mul":{"b":[2]}} => bad $mul b
{"$min":{"b":[]}} => bad $min b
{"$min":{"b":{}}} => bad $min b
{"$max":{"b":{"x":1}}} => bad $max b
{"$rename":{"b":1}} => bad $rename b
{"$rename":{"b":""}} => bad $rename b
{"$rename":{"b":"c d"}} => bad $rename b
{"$rename":{"b":"c..d"}} => bad $rename b
{"$push":{"b":{"$each":1}}} => bad $push b
{"$push":{"b":{"$position":1}}} => bad $push b
{"$push":{"b":{"$each":[],"$slice":1}}} => bad $push b
{"$push":{"b":{"$each":[],"more":1}}} => bad $push b
{"$push":{"b":{"$each":[{"$x":1}]}}} => bad $push b
{"$push":{"b":{"$each":[1],"$position":1.5}}} => bad $push b
{"$push":{"b":{"$each":[1],"$position":"1"}}} => bad $push b
{"$push":{"b":{"$each":[1],"$position":9223372036854775808}}} => bad $push b
{"$push":{"b":{"$each":[1],"$position":-9223372036854775809}}} => bad $push b
{"$push":{"b":{"more":1,"$each":[]}}} => bad $push b
{"$pop":{"b":0}} => bad $pop b
{"$pop":{"b":2}} => bad $pop b
{"$pop":{"b":"1"}} => bad $pop b
{"$pop":{"b":true}} => bad $pop b
{"$addToSet":{"b":{"$each":{}}}} => bad $addToSet b
{"$addToSet":{"b":{"$each":[1],"$position":0}}} => bad $addToSet b
{"$addToSet":{"b":{"x":{"$y":1}}}} => bad $addToSet b
{"$setOnInsert":{"b":{"$y":1}}} => bad $setOnInsert b
{"$currentDate":{"b":false}} => bad $currentDate b
{"$currentDate":{"b":1}} => bad $currentDate b
{"$currentDate":{"b":{"$type":"date"}}} => bad $currentDate b
{"$set":{"a.b":1,"a":2}} => overlap a.b a
{"$set":{"a":1,"a.b":2}} => overlap a a.b
{"$set":{"b.c":1,"b.d":2,"b.c.e":3}} => overlap b.c b.c.e
{"$set":{"b-c":1,"b":2,"b.c":3}} => overlap b b.c
{"$set":{"b.c":1},"$unset":{"b":1}} => overlap b.c b
{"$unset":{"b":1},"$set":{"b.c":1}} => overlap b.c b
{"$currentDate":{"b":true},"$set":{"c":1},"$inc":{"b":1,"c.d":1}} => overlap c c.d
{"$rename":{"b":"b"}} => overlap b b
{"$rename":{"b":"b.c"}} => overlap b b.c
{"$rename":{"b.c":"b"}} => overlap b.c b
{"$rename":{"b":"c","d":"c"}} => overlap c c
{"$rename":{"b":"c","c":"d"}} => overlap c c
{"$rename":{"b":"c"},"$set":{"c":1}} => overlap c c
{"$set":{"_id":1}} => id
{"$unset":{"_id.x":1}} => id
{"$rename":{"b":"_id"}} => id
{"$rename":{"_id":"b"}} => id
{"$setOnInsert":{"_id":"s"}} => id
{"$set":{"_id":1,"b":1},"$inc":{"b":1}} => overlap b b
{"$inc":{"_id":"x"},"$set":{"b":1,"b.c":1}} => bad $inc _id"#;

// With many paths, with long texts and deep paths.
const OF_MANY: &str = r#"{"_id":"s","a":1}
{"$set":{~0 2000 "m#.x":0~,"m7.y":0,"m7":0,"m8":0}} => overlap m7.x m7
{"$set":{~0 2000 "m#.x":0~,"m7-1":0,"m7.x.y.z":0,"m8.x.y":0}} => overlap m7.x m7.x.y.z
{"$set":{~0 2000 "m#.x":0~,"z.a":0,"z":0,"m1":0}} => overlap z.a z
{"$set":{~0 2000 "m#.x":0~,"z-a":0,"z":0,"z.a":0}} => overlap z z.a
{"$set":{~0 2000 "m#.x":0~,"m1999":0,"m0":0}} => overlap m1999.x m1999
{"$set":{~0 2000 "m#.x":0~,"_id":0}} => id
{"$set":{~0 2000 "m#.x":0~,"m1-x":0,"m1_x":0,"m":0,"x":0}} => broken 6 1000 2006
{"$set":{"t":"~1000 2000 abc#~xx"}} => broken 9 8000 8001
{"$set":{"b.c.d.e.f.g.h.i.j.k.l.m.n.o.p":{}}} => {"_id":"s","a":1,"b":{"c":{"d":{"e":{"f":{"g":{"h":{"i":{"j":{"k":{"l":{"m":{"n":{"o":{"p":{}}}}}}}}}}}}}}}}
{"$set":{"b.c.d.e.f.g.h.i.j.k.l.m.n.o.p.q":{}}} => broken 2 16 17"#;

// Of as many members as a document may have.
const OF_WIDE: &str = r#"{"_id":1,~0 999 "m#":0~}
{"$set":{"x":1}} => broken 6 1000 1001
{"$inc":{"m0":0}} => same
{"$set":{"x":1},"$unset":{"m0":1}} => {"_id":1,~1 999 "m#":0~,"x":1}"#;

// Of as many elements as a list may have.
const OF_LONG: &str = r#"{"_id":1,"v":[~0 1000 #~]}
{"$push":{"v":0}} => broken 8 1000 1001
{"$addToSet":{"v":999}} => same
{"$set":{"v.1000":0}} => target v.1000
{"$addToSet":{"v":{"$each":[~0 1000 #~,~0 1000 #~]}}} => same"#;

// Of half as many.
const OF_HALF: &str = r#"{"_id":1,"v":[~0 500 #~]}
{"$addToSet":{"v":{"$each":[~0 1000 #~,~0 1000 #~]}}} => {"_id":1,"v":[~0 1000 #~]}
{"$addToSet":{"v":{"$each":[~500 3000 #~]}}} => broken 8 1000 3000"#;

// On a new document.
pub(crate) const NEW: &str = r#"{"_id":"s","a":1}
{"$setOnInsert":{"w":2},"$set":{"v":1}} => {"_id":"s","a":1,"v":1,"w":2}
{"$setOnInsert":{"a":1}} => same
{"$setOnInsert":{"a":2,"b.c":[1]}} => {"_id":"s","a":2,"b":{"c":[1]}}
{"$setOnInsert":{"w":2},"$min":{"m":7},"$currentDate":{"v":true}} => {"_id":"s","a":1,"m":7,"w":2,"v":{"$date":1700000000001}}
{"$setOnInsert":{}} => same"#;

// Replacements of the document in the first line.
pub(crate) const REPLACED: [&str; 2] = [OF_TEXT_ID, OF_NUMBER_ID];

const OF_TEXT_ID: &str = r#"{"_id":"o","a":1,"b":{"c":[2]}}
{"z":1} => {"_id":"o","z":1}
{} => {"_id":"o"}
{"_id":"o"} => {"_id":"o"}
{"z":1,"_id":"o"} => {"z":1,"_id":"o"}
{"_id":"o","a":1,"b":{"c":[2]}} => {"_id":"o","a":1,"b":{"c":[2]}}
{"a":{"_id":"p"}} => {"_id":"o","a":{"_id":"p"}}
{"w":[{"_id":1},null],"v":[]} => {"_id":"o","w":[{"_id":1},null],"v":[]}
{"_id":"p"} => id
{"z":1,"_id":"p"} => id
{"_id":null,"a":1} => id
{"_id":7} => id
{~0 999 "m#":0~} => {"_id":"o",~0 999 "m#":0~}
{~0 1000 "m#":0~} => broken 6 1000 1001
{"_id":"o",~0 1000 "m#":0~} => broken 6 1000 1001
{"_id":"p",~0 1000 "m#":0~} => id
{"v":[~0 1001 #~]} => broken 8 1000 1001
{"t":"~1000 2000 abc#~x"} => {"_id":"o","t":"~1000 2000 abc#~x"}
{"t":"~1000 2000 abc#~xx"} => broken 9 8000 8001"#;

const OF_NUMBER_ID: &str = r#"{"_id":1.5,"a":1}
{"_id":1.50,"b":2} => {"_id":1.5,"b":2}
{"b":2} => {"_id":1.5,"b":2}
{"_id":"1.5"} => id
{"_id":15} => id"#;

// What is inserted: paths with operands that a filter asks for, and an update or a replacement.
pub(crate) const INSERTED: &str = r#" ; [] ; {"$set":{"v":1}} => {"_id":true,"v":1}
_id k ; ["u",5] ; {"$setOnInsert":{"w":2},"$set":{"v":1}} => {"_id":"u","k":5,"v":1,"w":2}
k _id ; [5,"u"] ; {"$set":{"v":1}} => {"_id":"u","k":5,"v":1}
_id _id ; ["u","w"] ; {"$set":{}} => {"_id":"u"}
_id _id ; [[1],"w"] ; {"$set":{"v":1}} => {"_id":true,"v":1}
_id ; [""] ; {"$set":{"v":1}} => {"_id":true,"v":1}
_id ; [{"$a":1}] ; {"$set":{"v":1}} => {"_id":true,"v":1}
_id ; [null] ; {"$set":{"v":1}} => {"_id":null,"v":1}
_id.x _id ; [1,7] ; {"$set":{"v":1}} => {"_id":7,"v":1}
k k ; [1,2] ; {"$set":{"v":1}} => {"_id":true,"k":2,"v":1}
k.x k ; [2,1] ; {"$set":{"v":1}} => {"_id":true,"k":1,"v":1}
k.x k.y ; [2,[{}]] ; {"$unset":{"k.x":1}} => {"_id":true,"k":{"y":[{}]}}
k k.2 ; [[],9] ; {"$push":{"k":8}} => {"_id":true,"k":[null,null,9,8]}
k.0 ; [9] ; {"$rename":{"k":"l"}} => {"_id":true,"l":{"0":9}}
k k.x ; [1,2] ; {"$set":{"v":1}} => target k.x
k ; [{"$x":1}] ; {"$set":{"v":1}} => target k
k.y k ; [1,{"a":[{"$b":2}]}] ; {"$set":{"v":1}} => target k
k k.x l ; [1,2,{"$b":2}] ; {"$set":{"v":1}} => target k.x
l k k.x ; [{"$b":2},1,2] ; {"$set":{"v":1}} => target l
k k.x ; [1,{"$b":2}] ; {"$set":{"v":1}} => target k.x
v ; [1] ; {"$inc":{"v":2}} => {"_id":true,"v":3}
v ; ["x"] ; {"$inc":{"v":2}} => target v
n ; [10000000000000000000] ; {"$inc":{"n":90000000000000000000}} => range n
at ; [{"$date":5}] ; {"$currentDate":{"at":true}} => {"_id":true,"at":{"$date":1700000000001}}
l ; [[~0 1001 #~]] ; {"$set":{"v":1}} => broken 8 1000 1001
l ; [[~0 1001 #~]] ; {"$pop":{"l":1}} => {"_id":true,"l":[~0 1000 #~]}
b.c.d.e.f.g.h.i.j.k.l.m.n.o.p.q ; [{}] ; {"$set":{"v":1}} => broken 2 16 17
b.c.d.e.f.g.h.i.j.k.l.m.n.o.p.q ; [{}] ; {"$unset":{"b.c":1}} => {"_id":true,"b":{}}
 ; [] ; {"z":1} => {"_id":true,"z":1}
 ; [] ; {} => {"_id":true}
 ; [] ; {"_id":null,"a":{"_id":[]}} => {"_id":null,"a":{"_id":[]}}
_id ; ["u"] ; {"z":1} => {"_id":"u","z":1}
_id ; ["u"] ; {"z":1,"_id":"u"} => {"z":1,"_id":"u"}
_id ; ["u"] ; {"_id":"w"} => id
_id _id ; ["u","w"] ; {"_id":"w"} => id
_id ; [[1]] ; {"_id":"w"} => {"_id":"w"}
_id _id ; [[1],"u"] ; {"_id":"w"} => {"_id":"w"}
_id.x ; [1] ; {"_id":"w"} => {"_id":"w"}
_id k ; ["u",5] ; {"z":1} => {"_id":"u","z":1}
k ; [{"$x":1}] ; {"z":1} => {"_id":true,"z":1}
_id ; ["u"] ; {~0 1000 "m#":0~} => broken 6 1000 1001
_id ; ["u"] ; {"_id":"w",~0 1000 "m#":0~} => id"#;
