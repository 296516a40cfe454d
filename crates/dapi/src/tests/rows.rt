// The rows of the table of calls.
//
// A row is a line of words, perhaps with ` | ` and settings; the input, whose last LF isn't its own; and behind `=> ` the
// status, the notes and the output. `---` and an LF stand behind the last byte of output.
pub(super) const REQUESTS: &str = r#"run --collection=c
/v1/ks/c {"insertOne":{"document":{"_id":"a","n":1.50}}}
/v1/ks/c {"insertOne":{"document":{"_id":"a","n":1.50}}}

/v1/ks/c {"insertOne":01}
/v1/ks/c {"insertOne":
/v1/ks/c {"insertOne":{"document":{"t":"\ud800"}}}
/v1/ks/c {"explain":{}}
/v1/ks/c {"insertOne":{"document":{"_id":"b","n":99999999999999999999.999999999999999999,"e":1e3,"z":-0}}}
/v1/ks/c {"insertOne":{"document":{"n":100000000000000000000}}}
/v1/ks/c {"insertOne":{"document":{"_id":{"$date":0}}}}
/v1/ks/c {"insertOne":{"document":{"_id":[1]}}}
/v1/ks/c {"insertOne":{"document":{"_id":""}}}
/v1/ks/c {"insertOne":{"document":{"n":1,"_id":{}}}}
/v1/ks/c {"insertOne":{"document":{"_id":"d","a b":1}}}
/v1/ks/c {"insertOne":{"document":{"_id":"d","":1}}}
/v1/ks/c {"insertOne":{"document":{"_id":"d","nnnnnnnnnnnnnnnnnnnnnnnnnnnnnnnnnnnnnnnnnnnnnnnnnnnnnnnnnnnnnnnnnnnnnnnnnnnnnnnnnnnnnnnnnnnnnnnnnnnnn":1}}}
/v1/ks/c {"insertOne":{"document":{"_id":"d","nnnnnnnnnnnnnnnnnnnnnnnnnnnnnnnnnnnnnnnnnnnnnnnnnnnnnnnnnnnnnnnnnnnnnnnnnnnnnnnnnnnnnnnnnnnnnnnnnnnn":1}}}
/v1/ks/c {"insertOne":{"document":{"_id":2.50}}}
/v1/ks/c {"insertOne":{"document":{"_id":2.5}}}
/v1/ks/c {"insertOne":{"document":{"_id":"e"},"options":{}}}
/v1/ks/c {"insertOne":{"document":{"_id":"e"}},"x":1}
/v1/ks/c {"insertOne":{"document":7}}
/v1/ks/d {"insertOne":{"document":{"_id":"e"}}}
/v1/other/c {"insertOne":{"document":{"_id":"e"}}}
/v1/ks {"insertOne":{"document":{"_id":"e"}}}
/v1/ks/d {
/v1/ks/c {"insertOne":{"document":{"_id":"q\"\u0001"}}}
/v1/ks/c {"insertOne":{"document":{"_id":"q\"\u0001"}}}
/v1/ks/c {"insertOne":{"document":{"_id":null}}}
/v1/ks/c {"insertOne":{"document":{"_id":true}}}
=> 0
{"status":{"insertedIds":["a"]}}
{"errors":[{"message":"Document \"a\" already exists at version 1","errorCode":"DOCUMENT_ALREADY_EXISTS"}]}
{"errors":[{"message":"Body is not JSON at byte 13","errorCode":"INVALID_JSON"}]}
{"errors":[{"message":"Body is not JSON at byte 13","errorCode":"INVALID_JSON"}]}
{"errors":[{"message":"Body is not JSON at byte 30","errorCode":"INVALID_JSON"}]}
{"errors":[{"message":"No command matched","errorCode":"NO_COMMAND_MATCHED"}]}
{"status":{"insertedIds":["b"]}}
{"errors":[{"message":"Number is out of range at byte 30","errorCode":"NUMBER_OUT_OF_RANGE"}]}
{"status":{"insertedIds":[{"$date":0}]}}
{"errors":[{"message":"Field _id is of the wrong kind","errorCode":"SHRED_BAD_DOCID_TYPE"}]}
{"errors":[{"message":"Field _id is an empty text","errorCode":"SHRED_BAD_DOCID_EMPTY_STRING"}]}
{"errors":[{"message":"Field _id is of the wrong kind","errorCode":"SHRED_BAD_DOCID_TYPE"}]}
{"errors":[{"message":"Member name is not allowed: a b","errorCode":"SHRED_DOC_KEY_NAME_VIOLATION"}]}
{"errors":[{"message":"Document limit 3 is 1, found 0","errorCode":"SHRED_DOC_LIMIT_VIOLATION"}]}
{"errors":[{"message":"Document limit 4 is 100, found 101","errorCode":"SHRED_DOC_LIMIT_VIOLATION"}]}
{"status":{"insertedIds":["d"]}}
{"status":{"insertedIds":[2.5]}}
{"errors":[{"message":"Document 2.5 already exists at version 5","errorCode":"DOCUMENT_ALREADY_EXISTS"}]}
{"errors":[{"message":"Command field invalid: options","errorCode":"COMMAND_FIELD_INVALID"}]}
{"errors":[{"message":"No command matched","errorCode":"NO_COMMAND_MATCHED"}]}
{"errors":[{"message":"Command field invalid: document","errorCode":"COMMAND_FIELD_INVALID"}]}
{"errors":[{"message":"Collection d does not exist","errorCode":"COLLECTION_NOT_EXIST"}]}
{"errors":[{"message":"Keyspace other does not exist","errorCode":"KEYSPACE_NOT_EXIST"}]}
{"errors":[{"message":"No command matched","errorCode":"NO_COMMAND_MATCHED"}]}
{"errors":[{"message":"Body is not JSON at byte 1","errorCode":"INVALID_JSON"}]}
{"status":{"insertedIds":["q\"\u0001"]}}
{"errors":[{"message":"Document \"q\\\"\\u0001\" already exists at version 6","errorCode":"DOCUMENT_ALREADY_EXISTS"}]}
{"status":{"insertedIds":[null]}}
{"status":{"insertedIds":[true]}}
---
run --collection=c
/v1/ks/c {"insertOne":{"document":{"_id":"a","n":1.50}}}
/v1/ks/c {"findOne":{"filter":{"_id":"a"}}}
/v1/ks/c {"findOne":{"filter":{"_id":"x"}}}
/v1/ks/c {"findOne":{}}
/v1/ks/zz {"findOne":{}}
/v1/ks/zz {"insertOne":{"document":{"_id":1}}}
/v1/ks/9c {"findOne":{}}
=> 0
{"status":{"insertedIds":["a"]}}
{"data":{"document":{"_id":"a","n":1.5}}}
{"data":{"document":null}}
{"data":{"document":{"_id":"a","n":1.5}}}
{"errors":[{"message":"Collection zz does not exist","errorCode":"COLLECTION_NOT_EXIST"}]}
{"errors":[{"message":"Collection zz does not exist","errorCode":"COLLECTION_NOT_EXIST"}]}
{"errors":[{"message":"Collection name is invalid: 9c","errorCode":"INVALID_COLLECTION_NAME"}]}
---
run --collection=c
/v1/ks/c {"insertOne":{"document":{"_id":"b","n":99999999999999999999.999999999999999999,"e":1e3,"z":-0}}}
/v1/ks/c {"findOne":{"filter":{"_id":"b"}}}
=> 0
{"status":{"insertedIds":["b"]}}
{"data":{"document":{"_id":"b","n":99999999999999999999.999999999999999999,"e":1000,"z":0}}}
---
run --collection=c
/v1/ks/c {"insertOne":{"document":{"_id":"t","tags":["x",null,{"k":1}]}}}
/v1/ks/c {"countDocuments":{"filter":{"tags":"x"}}}
/v1/ks/c {"countDocuments":{"filter":{"tags":null}}}
/v1/ks/c {"countDocuments":{"filter":{"tags.2.k":1}}}
/v1/ks/c {"countDocuments":{"filter":{"tags":{"$size":3}}}}
/v1/ks/c {"countDocuments":{"filter":{"tags":{"$ne":"x"}}}}
=> 0
{"status":{"insertedIds":["t"]}}
{"status":{"count":1}}
{"status":{"count":1}}
{"status":{"count":1}}
{"status":{"count":1}}
{"status":{"count":0}}
---
run --keyspace=k2 --collection=c --collection=d --collection=c
/v1/k2/d {"insertOne":{"document":{"_id":"1","a":{"0":5}}}}
/v1/k2/d {"insertOne":{"document":{"_id":"2","a":[5]}}}
/v1/k2/d {"countDocuments":{"filter":{"a.0":5}}}
/v1/k2/c {"insertOne":{"document":{"_id":"a"}}}
/v1/k2/c {"countDocuments":{"filter":{"x":{"$ne":1}}}}
/v1/k2/c {"countDocuments":{"filter":{"x":{"$nin":[1]}}}}
/v1/k2/c {"countDocuments":{"filter":{"$not":{"x":{"$gt":1}}}}}
/v1/k2/c {"countDocuments":{"filter":{"x":{"$exists":false}}}}
/v1/k2/c {"countDocuments":{"filter":{"x":null}}}
/v1/ks/c {"countDocuments":{}}
=> 0
{"status":{"insertedIds":["1"]}}
{"status":{"insertedIds":["2"]}}
{"status":{"count":2}}
{"status":{"insertedIds":["a"]}}
{"status":{"count":1}}
{"status":{"count":1}}
{"status":{"count":1}}
{"status":{"count":1}}
{"status":{"count":0}}
{"errors":[{"message":"Keyspace ks does not exist","errorCode":"KEYSPACE_NOT_EXIST"}]}
---
run --collection=c | keeper=2
/v1/ks/c {"insertOne":{"document":{"_id":"a"}}}

=> 4
keeper fault
---
run --collection=c | keeper=3
/v1/ks/c {"insertOne":{"document":{"_id":"a"}}}
/v1/ks/c {"insertOne":{"document":{"_id":"a"}}}
/v1/ks/c {"insertOne":{"document":{"_id":"a"}}}
=> 0
{"errors":[{"message":"Store fault: 0 then 1","errorCode":"STORE_FAULT"}]}
{"status":{"insertedIds":["a"]}}
{"errors":[{"message":"Document \"a\" already exists at version 1","errorCode":"DOCUMENT_ALREADY_EXISTS"}]}
---
run --collection=c | last=9223372036854775805
/v1/ks/c {"insertOne":{"document":{"_id":"a"}}}
/v1/ks/c {"insertOne":{"document":{"_id":"b"}}}
/v1/ks/c {"countDocuments":{}}
=> 0
{"status":{"insertedIds":["a"]}}
{"errors":[{"message":"No version numbers are left","errorCode":"VERSIONS_SPENT"}]}
{"status":{"count":1}}
---
run
hello
=> 6
line 1 is not a request
---
"#;

// Updates: what they make, what they are refused for, and what a failed call of the keeper leaves.
pub(super) const UPDATES: &str = r#"run --collection=c
/v1/ks/c {"updateOne":{"update":{"$set":{"a.b":1,"a":2}}}}
/v1/ks/c {"updateOne":{"update":{"$set":{"a":2}},"options":{"upsert":1}}}
/v1/ks/c {"updateOne":{"update":{"$set":{"a":2}},"options":{}}}
/v1/ks/c {"insertOne":{"document":{"_id":"a","s":"x"}}}
/v1/ks/c {"updateOne":{"update":{"$inc":{"s":1}}}}
/v1/ks/c {"updateOne":{"update":{"$set":{"s":"x"}}}}
/v1/ks/c {"insertOne":{"document":{"_id":"a"}}}
/v1/ks/c {"updateOne":{"filter":{"s":"y"},"update":{"$set":{"s":"z"}}}}
/v1/ks/c {"updateOne":{"update":{"$set":{"t":1}}}}
/v1/ks/c {"insertOne":{"document":{"_id":"a"}}}
/v1/ks/c {"updateOne":{"update":{"$set":{"t.u":1}}}}
/v1/ks/zz {"updateOne":{"update":{"$set":{"t":1}}}}
=> 0
{"errors":[{"message":"Update paths conflict: a.b and a","errorCode":"UNSUPPORTED_UPDATE_OPERATION_PARAM"}]}
{"errors":[{"message":"Command field invalid: options.upsert","errorCode":"COMMAND_FIELD_INVALID"}]}
{"status":{"matchedCount":0,"modifiedCount":0}}
{"status":{"insertedIds":["a"]}}
{"errors":[{"message":"Update target is of the wrong kind at s","errorCode":"UNSUPPORTED_UPDATE_OPERATION_TARGET"}]}
{"status":{"matchedCount":1,"modifiedCount":0}}
{"errors":[{"message":"Document \"a\" already exists at version 1","errorCode":"DOCUMENT_ALREADY_EXISTS"}]}
{"status":{"matchedCount":0,"modifiedCount":0}}
{"status":{"matchedCount":1,"modifiedCount":1}}
{"errors":[{"message":"Document \"a\" already exists at version 2","errorCode":"DOCUMENT_ALREADY_EXISTS"}]}
{"errors":[{"message":"Update target is of the wrong kind at t.u","errorCode":"UNSUPPORTED_UPDATE_OPERATION_TARGET"}]}
{"errors":[{"message":"Collection zz does not exist","errorCode":"COLLECTION_NOT_EXIST"}]}
---
run --collection=c
/v1/ks/c {"insertOne":{"document":{"_id":"l","v":[1,2,3],"e":[],"m":10000000000000000000}}}
/v1/ks/c {"updateOne":{"update":{"$push":{"v":{"$each":[8,9],"$position":-1}}}}}
/v1/ks/c {"updateOne":{"update":{"$addToSet":{"v":2}}}}
/v1/ks/c {"updateOne":{"update":{"$pop":{"e":1}}}}
/v1/ks/c {"updateOne":{"update":{"$mul":{"m":10000000000000000000}}}}
/v1/ks/c {"updateOne":{"update":{"$unset":{"m":1},"$rename":{"e":"k.n"}}}}
/v1/ks/c {"findOne":{}}
=> 0
{"status":{"insertedIds":["l"]}}
{"status":{"matchedCount":1,"modifiedCount":1}}
{"status":{"matchedCount":1,"modifiedCount":0}}
{"status":{"matchedCount":1,"modifiedCount":0}}
{"errors":[{"message":"Number is out of range at m","errorCode":"NUMBER_OUT_OF_RANGE"}]}
{"status":{"matchedCount":1,"modifiedCount":1}}
{"data":{"document":{"_id":"l","v":[1,2,8,9,3],"k":{"n":[]}}}}
---
run --collection=c
/v1/ks/c {"insertOne":{"document":{"_id":"order-1001","customer":{"name":"Ada Lovelace","city":"London"},"items":[{"sku":"A-1","qty":2,"price":19.99}],"placed":{"$date":1700000000000},"paid":false}}}
/v1/ks/c {"updateOne":{"filter":{"_id":"order-1001"},"update":{"$inc":{"items.0.qty":1},"$set":{"paid":true}}}}
/v1/ks/c {"findOne":{"filter":{"customer.city":"London","items.0.qty":{"$gte":3},"placed":{"$gt":{"$date":1690000000000}}}}}
/v1/ks/c {"updateOne":{"update":{"$currentDate":{"at":true},"$unset":{"customer":1,"items":1,"placed":1}}}}
/v1/ks/c {"findOne":{}}
=> 0
{"status":{"insertedIds":["order-1001"]}}
{"status":{"matchedCount":1,"modifiedCount":1}}
{"data":{"document":{"_id":"order-1001","customer":{"name":"Ada Lovelace","city":"London"},"items":[{"sku":"A-1","qty":3,"price":19.99}],"placed":{"$date":1700000000000},"paid":true}}}
{"status":{"matchedCount":1,"modifiedCount":1}}
{"data":{"document":{"_id":"order-1001","paid":true,"at":{"$date":1700000000001}}}}
---
run --collection=c | keeper=5
/v1/ks/c {"insertOne":{"document":{"_id":"a","n":0}}}
/v1/ks/c {"updateOne":{"update":{"$inc":{"n":1}}}}
/v1/ks/c {"findOne":{}}
=> 0
{"status":{"insertedIds":["a"]}}
{"errors":[{"message":"Store fault: 0 then 1","errorCode":"STORE_FAULT"}]}
{"data":{"document":{"_id":"a","n":0}}}
---
run --collection=c | last=9223372036854775805
/v1/ks/c {"insertOne":{"document":{"_id":"a"}}}
/v1/ks/c {"updateOne":{"update":{"$set":{"n":1}}}}
/v1/ks/c {"updateOne":{"update":{"$unset":{"n":1}}}}
=> 0
{"status":{"insertedIds":["a"]}}
{"errors":[{"message":"No version numbers are left","errorCode":"VERSIONS_SPENT"}]}
{"status":{"matchedCount":1,"modifiedCount":0}}
---
"#;

// Documents that are deleted, by filters and sorts; none that match; what isn't a deletion's; a failed call, no number left.
pub(super) const DELETIONS: &str = r#"run --collection=c
/v1/ks/c {"insertOne":{"document":{"_id":"job-1","rank":2}}}
/v1/ks/c {"insertOne":{"document":{"_id":"job-2","rank":7}}}
/v1/ks/c {"deleteOne":{"sort":{"rank":-1}}}
/v1/ks/c {"find":{}}
/v1/ks/c {"deleteOne":{"filter":{"_id":"job-2"}}}
/v1/ks/c {"deleteOne":{"filter":{"_id":[1]}}}
/v1/ks/c {"deleteOne":{"update":{}}}
/v1/ks/c {"deleteOne":{"options":{}}}
/v1/ks/zz {"deleteOne":{}}
/v1/ks/c {"deleteOne":{}}
/v1/ks/c {"deleteOne":{}}
/v1/ks/c {"insertOne":{"document":{"_id":"job-1"}}}

=> 0
{"status":{"insertedIds":["job-1"]}}
{"status":{"insertedIds":["job-2"]}}
{"status":{"deletedCount":1}}
{"data":{"documents":[{"_id":"job-1","rank":2}],"nextPageState":null}}
{"status":{"deletedCount":0}}
{"status":{"deletedCount":0}}
{"errors":[{"message":"Command field invalid: update","errorCode":"COMMAND_FIELD_INVALID"}]}
{"errors":[{"message":"Command field invalid: options","errorCode":"COMMAND_FIELD_INVALID"}]}
{"errors":[{"message":"Collection zz does not exist","errorCode":"COLLECTION_NOT_EXIST"}]}
{"status":{"deletedCount":1}}
{"status":{"deletedCount":0}}
{"status":{"insertedIds":["job-1"]}}
---
run --collection=c | keeper=5
/v1/ks/c {"insertOne":{"document":{"_id":"a"}}}
/v1/ks/c {"deleteOne":{}}
/v1/ks/c {"deleteOne":{}}

=> 0
{"status":{"insertedIds":["a"]}}
{"errors":[{"message":"Store fault: 0 then 1","errorCode":"STORE_FAULT"}]}
{"status":{"deletedCount":1}}
---
run --collection=c | last=9223372036854775805
/v1/ks/c {"insertOne":{"document":{"_id":"a"}}}
/v1/ks/c {"deleteOne":{"filter":{"_id":"b"}}}
/v1/ks/c {"deleteOne":{}}

=> 0
{"status":{"insertedIds":["a"]}}
{"status":{"deletedCount":0}}
{"errors":[{"message":"No version numbers are left","errorCode":"VERSIONS_SPENT"}]}
"#;

pub(super) const WORDS: &str = r#"
=> 1
usage: dapi run|mix|gen N SEED|check|serve --listen=A [options]
---
fly
=> 1
usage: dapi run|mix|gen N SEED|check|serve --listen=A [options]
---
run --collection=
=> 1
usage: dapi run|mix|gen N SEED|check|serve --listen=A [options]
---
run --collection=9c
=> 1
usage: dapi run|mix|gen N SEED|check|serve --listen=A [options]
---
run --collection=c x
=> 1
usage: dapi run|mix|gen N SEED|check|serve --listen=A [options]
---
run -collection=c
=> 1
usage: dapi run|mix|gen N SEED|check|serve --listen=A [options]
---
--collection=c run
=> 1
usage: dapi run|mix|gen N SEED|check|serve --listen=A [options]
---
run --keyspace=
=> 1
usage: dapi run|mix|gen N SEED|check|serve --listen=A [options]
---
run --keyspace=a --keyspace=a
=> 1
usage: dapi run|mix|gen N SEED|check|serve --listen=A [options]
---
run --keyspace=a --collection=c --keyspace=a
=> 1
usage: dapi run|mix|gen N SEED|check|serve --listen=A [options]
---
run --store=memory
=> 1
usage: dapi run|mix|gen N SEED|check|serve --listen=A [options]
---
run --collection=ABCDEFGHIJKLMNOPQRSTUVWXYZ_abcdefghijklmnopqrstuv
=> 1
usage: dapi run|mix|gen N SEED|check|serve --listen=A [options]
---
run --collection=ABCDEFGHIJKLMNOPQRSTUVWXYZ_abcdefghijklmnopqrstu
=> 0
---
"#;

// With and without a feed at the end; lines that aren't requests; a read, a write or a sink's room that ends.
pub(super) const STREAMS: &str = r#"run --collection=c
=> 0
---
run --collection=c
/v1/ks/c {"insertOne":{"document":{"_id":"a"}}}

=> 0
{"status":{"insertedIds":["a"]}}
---
run --collection=c
/v1/ks/c {"insertOne":{"document":{"_id":"a"}}}
=> 0
{"status":{"insertedIds":["a"]}}
---
run --collection=c
/v1/ks/c {"insertOne":{"document":{"_id":"a"}}}
/v1/ks/c {"insertOne":{"document":{"_id":"a"}}}
hello

=> 6
line 3 is not a request
{"status":{"insertedIds":["a"]}}
{"errors":[{"message":"Document \"a\" already exists at version 1","errorCode":"DOCUMENT_ALREADY_EXISTS"}]}
---
run --collection=c
/v1/ks/c {"insertOne":{"document":{"_id":"a"}}}
/v1/ks/c {"insertOne":{"document":{"_id":"a"}}}
hello
=> 6
line 3 is not a request
{"status":{"insertedIds":["a"]}}
{"errors":[{"message":"Document \"a\" already exists at version 1","errorCode":"DOCUMENT_ALREADY_EXISTS"}]}
---
run --collection=c
/v1/ks/c {"insertOne":{"document":{"_id":"a"}}}
/v1/ks/c {"insertOne":{"document":{"_id":"a"}}}
/v1/ks/c

=> 6
line 3 is not a request
{"status":{"insertedIds":["a"]}}
{"errors":[{"message":"Document \"a\" already exists at version 1","errorCode":"DOCUMENT_ALREADY_EXISTS"}]}
---
run --collection=c
/v1/ks/c {"insertOne":{"document":{"_id":"a"}}}
/v1/ks/c {"insertOne":{"document":{"_id":"a"}}}
/v1/ks/c/d {}
=> 6
line 3 is not a request
{"status":{"insertedIds":["a"]}}
{"errors":[{"message":"Document \"a\" already exists at version 1","errorCode":"DOCUMENT_ALREADY_EXISTS"}]}
---
run --collection=c
/v1/ks/c {"insertOne":{"document":{"_id":"a"}}}
/v1/ks/c {"insertOne":{"document":{"_id":"a"}}}
/v1//c {}
=> 6
line 3 is not a request
{"status":{"insertedIds":["a"]}}
{"errors":[{"message":"Document \"a\" already exists at version 1","errorCode":"DOCUMENT_ALREADY_EXISTS"}]}
---
run --collection=c
/v1/ks/c {"insertOne":{"document":{"_id":"a"}}}
/v1/ks/c {"insertOne":{"document":{"_id":"a"}}}
/v1/ {}
=> 6
line 3 is not a request
{"status":{"insertedIds":["a"]}}
{"errors":[{"message":"Document \"a\" already exists at version 1","errorCode":"DOCUMENT_ALREADY_EXISTS"}]}
---
run --collection=c
/v1/ks/c {"insertOne":{"document":{"_id":"a"}}}
/v1/ks/c {"insertOne":{"document":{"_id":"a"}}}
/v2/ks/c {}
=> 6
line 3 is not a request
{"status":{"insertedIds":["a"]}}
{"errors":[{"message":"Document \"a\" already exists at version 1","errorCode":"DOCUMENT_ALREADY_EXISTS"}]}
---
run --collection=c
/v1/ks/c {"insertOne":{"document":{"_id":"a"}}}
/v1/ks/c {"insertOne":{"document":{"_id":"a"}}}
 /v1/ks/c {}
=> 6
line 3 is not a request
{"status":{"insertedIds":["a"]}}
{"errors":[{"message":"Document \"a\" already exists at version 1","errorCode":"DOCUMENT_ALREADY_EXISTS"}]}
---
run --collection=c
/v1/ks/c {"insertOne":{"document":{"_id":"a"}}}
/v1/ks/c {"insertOne":{"document":{"_id":"a"}}}
x
=> 6
line 3 is not a request
{"status":{"insertedIds":["a"]}}
{"errors":[{"message":"Document \"a\" already exists at version 1","errorCode":"DOCUMENT_ALREADY_EXISTS"}]}
---
run --collection=c | piece=1000 read=1
/v1/ks/c {"insertOne":{"document":{"_id":"a"}}}
/v1/ks/c {"insertOne":{"document":{"_id":"a"}}}
/v1/ks/c {"insertOne":{"document":{"_id":"a"}}}
/v1/ks/c {
=> 2
read fault
---
run --collection=c | piece=1000 read=2
/v1/ks/c {"insertOne":{"document":{"_id":"a"}}}
/v1/ks/c {"insertOne":{"document":{"_id":"a"}}}
/v1/ks/c {"insertOne":{"document":{"_id":"a"}}}
/v1/ks/c {
=> 2
read fault
{"status":{"insertedIds":["a"]}}
{"errors":[{"message":"Document \"a\" already exists at version 1","errorCode":"DOCUMENT_ALREADY_EXISTS"}]}
{"errors":[{"message":"Document \"a\" already exists at version 1","errorCode":"DOCUMENT_ALREADY_EXISTS"}]}
---
run --collection=c | piece=48 read=1
/v1/ks/c {"insertOne":{"document":{"_id":"a"}}}
/v1/ks/c {"insertOne":{"document":{"_id":"a"}}}
/v1/ks/c {"insertOne":{"document":{"_id":"a"}}}
/v1/ks/c {
=> 2
read fault
---
run --collection=c | piece=48 read=2
/v1/ks/c {"insertOne":{"document":{"_id":"a"}}}
/v1/ks/c {"insertOne":{"document":{"_id":"a"}}}
/v1/ks/c {"insertOne":{"document":{"_id":"a"}}}
/v1/ks/c {
=> 2
read fault
{"status":{"insertedIds":["a"]}}
---
run --collection=c | piece=48 read=3
/v1/ks/c {"insertOne":{"document":{"_id":"a"}}}
/v1/ks/c {"insertOne":{"document":{"_id":"a"}}}
/v1/ks/c {"insertOne":{"document":{"_id":"a"}}}
/v1/ks/c {
=> 2
read fault
{"status":{"insertedIds":["a"]}}
{"errors":[{"message":"Document \"a\" already exists at version 1","errorCode":"DOCUMENT_ALREADY_EXISTS"}]}
---
run --collection=c | piece=48 read=5
/v1/ks/c {"insertOne":{"document":{"_id":"a"}}}
/v1/ks/c {"insertOne":{"document":{"_id":"a"}}}
/v1/ks/c {"insertOne":{"document":{"_id":"a"}}}
/v1/ks/c {
=> 2
read fault
{"status":{"insertedIds":["a"]}}
{"errors":[{"message":"Document \"a\" already exists at version 1","errorCode":"DOCUMENT_ALREADY_EXISTS"}]}
{"errors":[{"message":"Document \"a\" already exists at version 1","errorCode":"DOCUMENT_ALREADY_EXISTS"}]}
---
run --collection=c | piece=47 read=2
/v1/ks/c {"insertOne":{"document":{"_id":"a"}}}
/v1/ks/c {"insertOne":{"document":{"_id":"a"}}}
/v1/ks/c {"insertOne":{"document":{"_id":"a"}}}
/v1/ks/c {
=> 2
read fault
---
run --collection=c | piece=49 read=2
/v1/ks/c {"insertOne":{"document":{"_id":"a"}}}
/v1/ks/c {"insertOne":{"document":{"_id":"a"}}}
/v1/ks/c {"insertOne":{"document":{"_id":"a"}}}
/v1/ks/c {
=> 2
read fault
{"status":{"insertedIds":["a"]}}
---
run --collection=c | piece=95 read=3
/v1/ks/c {"insertOne":{"document":{"_id":"a"}}}
/v1/ks/c {"insertOne":{"document":{"_id":"a"}}}
/v1/ks/c {"insertOne":{"document":{"_id":"a"}}}
/v1/ks/c {
=> 2
read fault
{"status":{"insertedIds":["a"]}}
{"errors":[{"message":"Document \"a\" already exists at version 1","errorCode":"DOCUMENT_ALREADY_EXISTS"}]}
{"errors":[{"message":"Document \"a\" already exists at version 1","errorCode":"DOCUMENT_ALREADY_EXISTS"}]}
---
run --collection=c | piece=96 read=2
/v1/ks/c {"insertOne":{"document":{"_id":"a"}}}
/v1/ks/c {"insertOne":{"document":{"_id":"a"}}}
/v1/ks/c {"insertOne":{"document":{"_id":"a"}}}
/v1/ks/c {
=> 2
read fault
{"status":{"insertedIds":["a"]}}
{"errors":[{"message":"Document \"a\" already exists at version 1","errorCode":"DOCUMENT_ALREADY_EXISTS"}]}
---
run --collection=c | piece=1 read=97
/v1/ks/c {"insertOne":{"document":{"_id":"a"}}}
/v1/ks/c {"insertOne":{"document":{"_id":"a"}}}
/v1/ks/c {"insertOne":{"document":{"_id":"a"}}}
/v1/ks/c {
=> 2
read fault
{"status":{"insertedIds":["a"]}}
{"errors":[{"message":"Document \"a\" already exists at version 1","errorCode":"DOCUMENT_ALREADY_EXISTS"}]}
---
run --collection=c | room=0
/v1/ks/c {"insertOne":{"document":{"_id":"a"}}}
/v1/ks/c {"insertOne":{"document":{"_id":"a"}}}
/v1/ks/c {"insertOne":{"document":{"_id":"a"}}}
hello

=> 3
write fault
---
run --collection=c | room=9
/v1/ks/c {"insertOne":{"document":{"_id":"a"}}}
/v1/ks/c {"insertOne":{"document":{"_id":"a"}}}
/v1/ks/c {"insertOne":{"document":{"_id":"a"}}}
hello

=> 3
write fault
{"status"---
run --collection=c | room=34
/v1/ks/c {"insertOne":{"document":{"_id":"a"}}}
/v1/ks/c {"insertOne":{"document":{"_id":"a"}}}
/v1/ks/c {"insertOne":{"document":{"_id":"a"}}}
hello

=> 3
write fault
{"status":{"insertedIds":["a"]}}
{---
run --collection=c | room=35
/v1/ks/c {"insertOne":{"document":{"_id":"a"}}}
/v1/ks/c {"insertOne":{"document":{"_id":"a"}}}
/v1/ks/c {"insertOne":{"document":{"_id":"a"}}}
hello

=> 3
write fault
{"status":{"insertedIds":["a"]}}
{"---
run --collection=c | room=100
/v1/ks/c {"insertOne":{"document":{"_id":"a"}}}
/v1/ks/c {"insertOne":{"document":{"_id":"a"}}}
/v1/ks/c {"insertOne":{"document":{"_id":"a"}}}
hello

=> 3
write fault
{"status":{"insertedIds":["a"]}}
{"errors":[{"message":"Document \"a\" already exists at version 1",---
run --collection=c | write=1
/v1/ks/c {"insertOne":{"document":{"_id":"a"}}}
/v1/ks/c {"insertOne":{"document":{"_id":"a"}}}
/v1/ks/c {"insertOne":{"document":{"_id":"a"}}}
hello

=> 3
write fault
---
"#;

// Lines of a CR alone are passed over, and a CR behind a body belongs to it.
pub(super) const RETURNS: &str = "run --collection=c\n\n\r\n\n=> 0\n---\n\
run --collection=c\n\r\r\n=> 6\nline 1 is not a request\n---\n\
run --collection=c\n/v1/ks/c {\"countDocuments\":{}}\r\n=> 0\n{\"status\":{\"count\":0}}\n---\n";
