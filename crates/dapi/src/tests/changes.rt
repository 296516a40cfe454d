// Rows of changes of many documents, in the form of the other rows.

// Pages of 20 that are updated and deleted, unchanged documents among them, a refusal behind 19 writes; refusals behind
// documents that weren't changed, and the order of refusals; failed calls, and numbers that end.
pub(super) const MANY: &str = r#"run --collection=c
/v1/ks/c {"insertOne":{"document":{"_id":"d00","n":0}}}
/v1/ks/c {"insertOne":{"document":{"_id":"d01","n":1}}}
/v1/ks/c {"insertOne":{"document":{"_id":"d02","n":2}}}
/v1/ks/c {"insertOne":{"document":{"_id":"d03","n":3}}}
/v1/ks/c {"insertOne":{"document":{"_id":"d04","n":4}}}
/v1/ks/c {"insertOne":{"document":{"_id":"d05","n":5}}}
/v1/ks/c {"insertOne":{"document":{"_id":"d06","n":6}}}
/v1/ks/c {"insertOne":{"document":{"_id":"d07","n":7}}}
/v1/ks/c {"insertOne":{"document":{"_id":"d08","n":8}}}
/v1/ks/c {"insertOne":{"document":{"_id":"d09","n":9}}}
/v1/ks/c {"insertOne":{"document":{"_id":"d10","n":10}}}
/v1/ks/c {"insertOne":{"document":{"_id":"d11","n":11}}}
/v1/ks/c {"insertOne":{"document":{"_id":"d12","n":12}}}
/v1/ks/c {"insertOne":{"document":{"_id":"d13","n":13}}}
/v1/ks/c {"insertOne":{"document":{"_id":"d14","n":14}}}
/v1/ks/c {"insertOne":{"document":{"_id":"d15","n":15}}}
/v1/ks/c {"insertOne":{"document":{"_id":"d16","n":16}}}
/v1/ks/c {"insertOne":{"document":{"_id":"d17","n":17}}}
/v1/ks/c {"insertOne":{"document":{"_id":"d18","n":18}}}
/v1/ks/c {"insertOne":{"document":{"_id":"d19","n":19}}}
/v1/ks/c {"insertOne":{"document":{"_id":"d20","n":20}}}
/v1/ks/c {"updateMany":{"update":{"$inc":{"n":1}}}}
/v1/ks/c {"updateMany":{"update":{"$inc":{"n":1}},"options":{"pageState":"AQAAAAAAAAAUAWQxOQ=="}}}
/v1/ks/c {"find":{"filter":{"n":{"$gte":20}}}}
/v1/ks/c {"updateMany":{"filter":{"_id":{"$gte":"d05"}},"update":{"$set":{"t":1}},"options":{}}}
/v1/ks/c {"updateMany":{"update":{"$set":{"t":1}}}}
/v1/ks/c {"updateMany":{"update":{"$set":{"t":1}}}}
/v1/ks/c {"updateMany":{"update":{"$set":{"t":1}},"options":{"pageState":"AQAAAAAAAAAUAWQxOQ=="}}}
/v1/ks/c {"updateMany":{"update":{"$set":{"t":2}},"options":{"pageState":"AQAAAAAAAAAoAWQwMA=="}}}
/v1/ks/c {"updateMany":{"filter":{"t":3},"update":{"$set":{"t":2}}}}
/v1/ks/c {"updateMany":{"update":{"$set":{"n":1}},"options":{"pageState":"AX//////////AWM="}}}
/v1/ks/c {"updateOne":{"filter":{"_id":"d19"},"update":{"$set":{"n":"x"}}}}
/v1/ks/c {"updateMany":{"update":{"$inc":{"n":1}}}}
/v1/ks/c {"updateMany":{"filter":{"_id":"d19"},"update":{"$inc":{"n":1}}}}
/v1/ks/c {"updateMany":{"update":{"$inc":{"n":1}},"options":{"pageState":"AA=="}}}
/v1/ks/c {"updateMany":{"update":{"$inc":{"n":1}},"options":{"upsert":"x"}}}
/v1/ks/c {"updateMany":{"filter":{}}}
/v1/ks/c {"updateMany":{"update":{},"sort":{}}}
/v1/ks/c {"deleteMany":{"sort":{}}}
/v1/ks/c {"deleteMany":{"options":{}}}
/v1/ks/c {"deleteOne":{"filter":{"_id":"zz"}}}
/v1/ks/c {"deleteOne":{"filter":{"_id":[1]}}}
/v1/ks/c {"deleteMany":{}}
/v1/ks/c {"deleteMany":{}}
/v1/ks/c {"deleteMany":{}}
/v1/ks/c {"insertOne":{"document":{"_id":"x","k":1}}}
/v1/ks/c {"insertOne":{"document":{"_id":"y","k":3}}}
/v1/ks/c {"insertOne":{"document":{"_id":"z","k":2}}}
/v1/ks/c {"deleteOne":{"sort":{"k":-1}}}
/v1/ks/c {"find":{"projection":{"_id":1}}}
/v1/ks/c {"deleteOne":{}}
/v1/ks/c {"deleteOne":{}}
/v1/ks/c {"deleteOne":{}}
/v1/ks/zz {"deleteMany":{}}
/v1/ks/zz {"updateMany":{"update":{}}}
/v1/ks/zz {"deleteOne":{}}

=> 0
{"status":{"insertedIds":["d00"]}}
{"status":{"insertedIds":["d01"]}}
{"status":{"insertedIds":["d02"]}}
{"status":{"insertedIds":["d03"]}}
{"status":{"insertedIds":["d04"]}}
{"status":{"insertedIds":["d05"]}}
{"status":{"insertedIds":["d06"]}}
{"status":{"insertedIds":["d07"]}}
{"status":{"insertedIds":["d08"]}}
{"status":{"insertedIds":["d09"]}}
{"status":{"insertedIds":["d10"]}}
{"status":{"insertedIds":["d11"]}}
{"status":{"insertedIds":["d12"]}}
{"status":{"insertedIds":["d13"]}}
{"status":{"insertedIds":["d14"]}}
{"status":{"insertedIds":["d15"]}}
{"status":{"insertedIds":["d16"]}}
{"status":{"insertedIds":["d17"]}}
{"status":{"insertedIds":["d18"]}}
{"status":{"insertedIds":["d19"]}}
{"status":{"insertedIds":["d20"]}}
{"status":{"matchedCount":20,"modifiedCount":20,"moreData":true,"nextPageState":"AQAAAAAAAAAUAWQxOQ=="}}
{"status":{"matchedCount":1,"modifiedCount":1}}
{"data":{"documents":[{"_id":"d19","n":20},{"_id":"d20","n":21}],"nextPageState":null}}
{"status":{"matchedCount":16,"modifiedCount":16}}
{"status":{"matchedCount":20,"modifiedCount":5,"moreData":true,"nextPageState":"AQAAAAAAAAAUAWQxOQ=="}}
{"status":{"matchedCount":20,"modifiedCount":0,"moreData":true,"nextPageState":"AQAAAAAAAAAUAWQxOQ=="}}
{"status":{"matchedCount":1,"modifiedCount":0}}
{"status":{"matchedCount":20,"modifiedCount":20}}
{"status":{"matchedCount":0,"modifiedCount":0}}
{"status":{"matchedCount":20,"modifiedCount":19,"moreData":true,"nextPageState":"AX//////////AWQxOQ=="}}
{"status":{"matchedCount":1,"modifiedCount":1}}
{"status":{"matchedCount":19,"modifiedCount":19},"errors":[{"message":"Update target is of the wrong kind at n","errorCode":"UNSUPPORTED_UPDATE_OPERATION_TARGET"}]}
{"errors":[{"message":"Update target is of the wrong kind at n","errorCode":"UNSUPPORTED_UPDATE_OPERATION_TARGET"}]}
{"errors":[{"message":"Page state is invalid","errorCode":"INVALID_PAGE_STATE"}]}
{"errors":[{"message":"Command field invalid: options.upsert","errorCode":"COMMAND_FIELD_INVALID"}]}
{"errors":[{"message":"Command field invalid: update","errorCode":"COMMAND_FIELD_INVALID"}]}
{"errors":[{"message":"Command field invalid: sort","errorCode":"COMMAND_FIELD_INVALID"}]}
{"errors":[{"message":"Command field invalid: sort","errorCode":"COMMAND_FIELD_INVALID"}]}
{"errors":[{"message":"Command field invalid: options","errorCode":"COMMAND_FIELD_INVALID"}]}
{"status":{"deletedCount":0}}
{"status":{"deletedCount":0}}
{"status":{"deletedCount":20,"moreData":true}}
{"status":{"deletedCount":1}}
{"status":{"deletedCount":0}}
{"status":{"insertedIds":["x"]}}
{"status":{"insertedIds":["y"]}}
{"status":{"insertedIds":["z"]}}
{"status":{"deletedCount":1}}
{"data":{"documents":[{"_id":"x"},{"_id":"z"}],"nextPageState":null}}
{"status":{"deletedCount":1}}
{"status":{"deletedCount":1}}
{"status":{"deletedCount":0}}
{"errors":[{"message":"Collection zz does not exist","errorCode":"COLLECTION_NOT_EXIST"}]}
{"errors":[{"message":"Collection zz does not exist","errorCode":"COLLECTION_NOT_EXIST"}]}
{"errors":[{"message":"Collection zz does not exist","errorCode":"COLLECTION_NOT_EXIST"}]}
---
run --collection=c | keeper=7
/v1/ks/c {"insertOne":{"document":{"_id":"a"}}}
/v1/ks/c {"insertOne":{"document":{"_id":"b"}}}
/v1/ks/c {"deleteMany":{}}
/v1/ks/c {"updateMany":{"update":{"$set":{"n":1}}}}

=> 0
{"status":{"insertedIds":["a"]}}
{"status":{"insertedIds":["b"]}}
{"status":{"deletedCount":1},"errors":[{"message":"Store fault: 0 then 1","errorCode":"STORE_FAULT"}]}
{"status":{"matchedCount":1,"modifiedCount":1}}
---
run --collection=c | last=9223372036854775803
/v1/ks/c {"insertOne":{"document":{"_id":"a"}}}
/v1/ks/c {"insertOne":{"document":{"_id":"b"}}}
/v1/ks/c {"updateMany":{"update":{"$set":{"n":1}}}}
/v1/ks/c {"deleteMany":{}}
/v1/ks/c {"deleteMany":{"filter":{"n":2}}}

=> 0
{"status":{"insertedIds":["a"]}}
{"status":{"insertedIds":["b"]}}
{"status":{"matchedCount":1,"modifiedCount":1},"errors":[{"message":"No version numbers are left","errorCode":"VERSIONS_SPENT"}]}
{"errors":[{"message":"No version numbers are left","errorCode":"VERSIONS_SPENT"}]}
{"status":{"deletedCount":0}}
---
run --collection=c
/v1/ks/c {"insertOne":{"document":{"_id":1,"n":5}}}
/v1/ks/c {"insertOne":{"document":{"_id":2,"n":1}}}
/v1/ks/c {"insertOne":{"document":{"_id":3,"n":[1]}}}
/v1/ks/c {"insertOne":{"document":{"_id":4,"n":2}}}
/v1/ks/c {"updateMany":{"update":{"$max":{"n":4}}}}
/v1/ks/c {"updateMany":{"update":{"$max":{"n":4}}}}
/v1/ks/c {"updateMany":{"filter":{"n":{"$lt":9}},"update":{"$mul":{"n":50000000000000000000}}}}
/v1/ks/c {"find":{}}
/v1/ks/c {"updateMany":{"filter":{"n":{"$lt":9}},"update":{"$currentDate":{"at":true},"$unset":{"n":1}}}}
/v1/ks/c {"updateMany":{"update":{"$currentDate":{"at":true}}}}
/v1/ks/c {"find":{}}
/v1/ks/c {"updateMany":{"update":{"$setOnInsert":{"k":1}},"options":{"pageState":null}}}
/v1/ks/c {"updateMany":{"filter":{"$nor":[]},"update":{"a":1},"options":{"pageState":"AA=="}}}
/v1/ks/c {"updateMany":{"update":{"a":1},"options":{"pageState":"AA=="}}}
/v1/ks/c {"updateMany":{"update":{},"options":{"pageState":1}}}
/v1/ks/c {"updateMany":{"options":{"limit":1}}}
/v1/ks/c {"updateMany":[]}
/v1/ks/c {"deleteMany":{"filter":[]}}
/v1/ks/c {"deleteMany":{"filter":{"_id":{"$in":[4,2,9]}}}}
/v1/ks/c {"find":{"projection":{"_id":1}}}

=> 0
{"status":{"insertedIds":[1]}}
{"status":{"insertedIds":[2]}}
{"status":{"insertedIds":[3]}}
{"status":{"insertedIds":[4]}}
{"status":{"matchedCount":2,"modifiedCount":1},"errors":[{"message":"Update target is of the wrong kind at n","errorCode":"UNSUPPORTED_UPDATE_OPERATION_TARGET"}]}
{"errors":[{"message":"Update target is of the wrong kind at n","errorCode":"UNSUPPORTED_UPDATE_OPERATION_TARGET"}]}
{"errors":[{"message":"Number is out of range at n","errorCode":"NUMBER_OUT_OF_RANGE"}]}
{"data":{"documents":[{"_id":1,"n":5},{"_id":2,"n":4},{"_id":3,"n":[1]},{"_id":4,"n":2}],"nextPageState":null}}
{"status":{"matchedCount":3,"modifiedCount":3}}
{"status":{"matchedCount":4,"modifiedCount":1}}
{"data":{"documents":[{"_id":1,"at":{"$date":1700000000001}},{"_id":2,"at":{"$date":1700000000001}},{"_id":3,"n":[1],"at":{"$date":1700000000001}},{"_id":4,"at":{"$date":1700000000001}}],"nextPageState":null}}
{"status":{"matchedCount":4,"modifiedCount":0}}
{"errors":[{"message":"Filter operator $nor is not supported","errorCode":"UNSUPPORTED_FILTER_OPERATION"}]}
{"errors":[{"message":"Update operator a is not supported","errorCode":"UNSUPPORTED_UPDATE_OPERATION"}]}
{"errors":[{"message":"Command field invalid: options.pageState","errorCode":"COMMAND_FIELD_INVALID"}]}
{"errors":[{"message":"Command field invalid: options.limit","errorCode":"COMMAND_FIELD_INVALID"}]}
{"errors":[{"message":"Command field invalid: updateMany","errorCode":"COMMAND_FIELD_INVALID"}]}
{"errors":[{"message":"Command field invalid: filter","errorCode":"COMMAND_FIELD_INVALID"}]}
{"status":{"deletedCount":2}}
{"data":{"documents":[{"_id":1},{"_id":3}],"nextPageState":null}}
---
run --collection=c | keeper=7
/v1/ks/c {"insertOne":{"document":{"_id":"a"}}}
/v1/ks/c {"insertOne":{"document":{"_id":"b"}}}
/v1/ks/c {"updateMany":{"update":{"$set":{"n":1}}}}
/v1/ks/c {"updateMany":{"update":{"$set":{"n":1}}}}

=> 0
{"status":{"insertedIds":["a"]}}
{"status":{"insertedIds":["b"]}}
{"status":{"matchedCount":1,"modifiedCount":1},"errors":[{"message":"Store fault: 0 then 1","errorCode":"STORE_FAULT"}]}
{"status":{"matchedCount":2,"modifiedCount":1}}
---
run --collection=c | keeper=5
/v1/ks/c {"insertOne":{"document":{"_id":"a"}}}
/v1/ks/c {"insertOne":{"document":{"_id":"b"}}}
/v1/ks/c {"deleteMany":{}}
/v1/ks/c {"deleteMany":{}}

=> 0
{"status":{"insertedIds":["a"]}}
{"status":{"insertedIds":["b"]}}
{"errors":[{"message":"Store fault: 0 then 1","errorCode":"STORE_FAULT"}]}
{"status":{"deletedCount":2}}
---
run --collection=c | last=9223372036854775803
/v1/ks/c {"insertOne":{"document":{"_id":"a"}}}
/v1/ks/c {"insertOne":{"document":{"_id":"b"}}}
/v1/ks/c {"deleteMany":{}}
/v1/ks/c {"updateMany":{"update":{"$unset":{"n":1}}}}
/v1/ks/c {"updateMany":{"update":{"$set":{"n":1}}}}

=> 0
{"status":{"insertedIds":["a"]}}
{"status":{"insertedIds":["b"]}}
{"status":{"deletedCount":1},"errors":[{"message":"No version numbers are left","errorCode":"VERSIONS_SPENT"}]}
{"status":{"matchedCount":1,"modifiedCount":0}}
{"errors":[{"message":"No version numbers are left","errorCode":"VERSIONS_SPENT"}]}
"#;

// Behind the insertions of 130 documents: matches of several pages of the store, 20 of them at the end of a page, and a
// refusal on the second page.
pub(super) const CHANGES: &str =
    r#"/v1/ks/c {"updateMany":{"filter":{"k":{"$gte":60}},"update":{"$set":{"t":1}}}}
/v1/ks/c {"updateMany":{"filter":{"k":{"$gte":60}},"update":{"$set":{"t":1}},"options":{"pageState":"AQAAAAAAAAAUAoAAAAAAAAAESFhhcKfcAAA="}}}
/v1/ks/c {"updateMany":{"filter":{"k":{"$gte":44,"$lt":64}},"update":{"$set":{"t":2}}}}
/v1/ks/c {"updateMany":{"filter":{"$or":[{"k":{"$gte":44,"$lt":64}},{"k":129}]},"update":{"$set":{"t":2}}}}
/v1/ks/c {"updateOne":{"filter":{"_id":70},"update":{"$set":{"t":"x"}}}}
/v1/ks/c {"updateMany":{"filter":{"k":{"$gte":60}},"update":{"$inc":{"t":1}}}}
/v1/ks/c {"deleteMany":{"filter":{"$or":[{"k":{"$gte":44,"$lt":64}},{"k":129}]}}}
/v1/ks/c {"deleteMany":{"filter":{"k":{"$lt":10}}}}
/v1/ks/c {"deleteMany":{"filter":{"k":{"$gte":120}}}}
/v1/ks/c {"countDocuments":{}}
"#;

pub(super) const CHANGED: &str =
    r#"{"status":{"matchedCount":20,"modifiedCount":20,"moreData":true,"nextPageState":"AQAAAAAAAAAUAoAAAAAAAAAESFhhcKfcAAA="}}
{"status":{"matchedCount":20,"modifiedCount":20,"moreData":true,"nextPageState":"AQAAAAAAAAAoAoAAAAAAAAAFXeanebusAAA="}}
{"status":{"matchedCount":20,"modifiedCount":20}}
{"status":{"matchedCount":20,"modifiedCount":0,"moreData":true,"nextPageState":"AQAAAAAAAAAUAoAAAAAAAAADakz2NjGcAAA="}}
{"status":{"matchedCount":1,"modifiedCount":1}}
{"status":{"matchedCount":10,"modifiedCount":10},"errors":[{"message":"Update target is of the wrong kind at t","errorCode":"UNSUPPORTED_UPDATE_OPERATION_TARGET"}]}
{"status":{"deletedCount":20,"moreData":true}}
{"status":{"deletedCount":10}}
{"status":{"deletedCount":10}}
{"status":{"count":90}}
"#;
