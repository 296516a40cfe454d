// Rows of the commands on one document, in the form of the other rows.

// One document that is found and changed or deleted: as it was and as it is, by sorts and projections; what it is refused for.
pub(super) const ONES: &str = r#"run --collection=c
/v1/ks/c {"insertOne":{"document":{"_id":"p","a":{"b":1,"c":2},"l":[1,2,3]}}}
/v1/ks/c {"findOneAndReplace":{"filter":{"_id":"p"},"replacement":{"z":1},"options":{"returnDocument":"after"}}}
/v1/ks/c {"findOneAndReplace":{"filter":{"_id":"p"},"replacement":{"_id":"q"}}}
/v1/ks/c {"findOneAndReplace":{"filter":{"_id":"p"},"replacement":{"z":1.0}}}
/v1/ks/c {"findOneAndReplace":{"replacement":{"y":2,"_id":"p","z":1}}}
/v1/ks/c {"findOneAndReplace":{"replacement":{"_id":"p","y":2,"z":1},"options":{"returnDocument":"after"}}}
/v1/ks/c {"findOneAndReplace":{"replacement":{"_id":"p","y":2,"z":1},"options":{"returnDocument":"after"},"projection":{"y":1,"_id":0}}}
/v1/ks/c {"findOneAndReplace":{"replacement":{},"options":{"returnDocument":"before"},"projection":{"y":0}}}
/v1/ks/c {"findOneAndReplace":{"filter":{"y":2},"replacement":{"_id":"q"},"options":{}}}
/v1/ks/c {"findOne":{}}
=> 0
{"status":{"insertedIds":["p"]}}
{"data":{"document":{"_id":"p","z":1}},"status":{"matchedCount":1,"modifiedCount":1}}
{"errors":[{"message":"Field _id is not changeable","errorCode":"UNSUPPORTED_UPDATE_FOR_DOC_ID"}]}
{"data":{"document":{"_id":"p","z":1}},"status":{"matchedCount":1,"modifiedCount":0}}
{"data":{"document":{"_id":"p","z":1}},"status":{"matchedCount":1,"modifiedCount":1}}
{"data":{"document":{"_id":"p","y":2,"z":1}},"status":{"matchedCount":1,"modifiedCount":1}}
{"data":{"document":{"y":2}},"status":{"matchedCount":1,"modifiedCount":0}}
{"data":{"document":{"_id":"p","z":1}},"status":{"matchedCount":1,"modifiedCount":1}}
{"data":{"document":null},"status":{"matchedCount":0,"modifiedCount":0}}
{"data":{"document":{"_id":"p"}}}
---
run --collection=c
/v1/ks/c {"insertMany":{"documents":[{"_id":1,"n":5,"t":"a"},{"_id":2,"n":9},{"_id":3,"n":7,"t":"a"}]}}
/v1/ks/c {"findOneAndUpdate":{"update":{"$inc":{"n":1}}}}
/v1/ks/c {"findOneAndUpdate":{"update":{"$inc":{"n":1}},"options":{"returnDocument":"before"}}}
/v1/ks/c {"findOneAndUpdate":{"update":{"$inc":{"n":1}},"options":{"returnDocument":"after"}}}
/v1/ks/c {"findOneAndUpdate":{"sort":{"n":-1},"update":{"$set":{"u.v":true}},"projection":{"u":1},"options":{"returnDocument":"after"}}}
/v1/ks/c {"findOneAndUpdate":{"sort":{"n":-1},"update":{"$set":{"u.v":true}},"projection":{"u":1}}}
/v1/ks/c {"findOneAndUpdate":{"sort":{"t":-1,"n":1},"filter":{"n":{"$lt":9}},"update":{"$unset":{"t":1},"$setOnInsert":{"w":1}},"projection":{"t":1,"_id":0}}}
/v1/ks/c {"findOneAndUpdate":{"filter":{"n":100},"update":{"$set":{"t":1}},"options":{"returnDocument":"after"}}}
/v1/ks/c {"findOneAndUpdate":{"filter":{"_id":1},"update":{"$inc":{"t":1}},"options":{"returnDocument":"after"}}}
/v1/ks/c {"findOneAndUpdate":{"filter":{"_id":2},"update":{"$mul":{"n":12e18}}}}
/v1/ks/c {"findOneAndUpdate":{"filter":{"_id":2},"update":{"$set":{"a.b.c.d.e.f.g.h.i.j.k.l.m.n.o.p.q":1}}}}
/v1/ks/c {"findOneAndUpdate":{"filter":{"_id":2},"update":{},"options":{"returnDocument":"after"}}}
/v1/ks/c {"findOneAndUpdate":{"filter":{"_id":3},"update":{"$currentDate":{"at":true}},"options":{"returnDocument":"after"}}}
/v1/ks/c {"find":{}}
/v1/ks/c {"insertOne":{"document":{"_id":3}}}
=> 0
{"status":{"insertedIds":[1,2,3]}}
{"data":{"document":{"_id":1,"n":5,"t":"a"}},"status":{"matchedCount":1,"modifiedCount":1}}
{"data":{"document":{"_id":1,"n":6,"t":"a"}},"status":{"matchedCount":1,"modifiedCount":1}}
{"data":{"document":{"_id":1,"n":8,"t":"a"}},"status":{"matchedCount":1,"modifiedCount":1}}
{"data":{"document":{"_id":2,"u":{"v":true}}},"status":{"matchedCount":1,"modifiedCount":1}}
{"data":{"document":{"_id":2,"u":{"v":true}}},"status":{"matchedCount":1,"modifiedCount":0}}
{"data":{"document":{"t":"a"}},"status":{"matchedCount":1,"modifiedCount":1}}
{"data":{"document":null},"status":{"matchedCount":0,"modifiedCount":0}}
{"errors":[{"message":"Update target is of the wrong kind at t","errorCode":"UNSUPPORTED_UPDATE_OPERATION_TARGET"}]}
{"errors":[{"message":"Number is out of range at n","errorCode":"NUMBER_OUT_OF_RANGE"}]}
{"errors":[{"message":"Document limit 2 is 16, found 17","errorCode":"SHRED_DOC_LIMIT_VIOLATION"}]}
{"data":{"document":{"_id":2,"n":9,"u":{"v":true}}},"status":{"matchedCount":1,"modifiedCount":0}}
{"data":{"document":{"_id":3,"n":7,"at":{"$date":1700000000001}}},"status":{"matchedCount":1,"modifiedCount":1}}
{"data":{"documents":[{"_id":1,"n":8,"t":"a"},{"_id":2,"n":9,"u":{"v":true}},{"_id":3,"n":7,"at":{"$date":1700000000001}}],"nextPageState":null}}
{"errors":[{"message":"Document 3 already exists at version 9","errorCode":"DOCUMENT_ALREADY_EXISTS"}]}
---
run --collection=c
/v1/ks/c {"insertMany":{"documents":[{"_id":1,"n":5},{"_id":2,"n":9,"l":[1,2,3]},{"_id":3,"n":7}]}}
/v1/ks/c {"findOneAndDelete":{"sort":{"n":-1},"projection":{"l":{"$slice":-1}}}}
/v1/ks/c {"findOneAndDelete":{"filter":{"n":9}}}
/v1/ks/c {"findOneAndDelete":{"filter":{"_id":[1]}}}
/v1/ks/c {"findOneAndDelete":{}}
/v1/ks/c {"findOneAndDelete":{"projection":{"x":1,"_id":0}}}
/v1/ks/c {"findOneAndDelete":{}}
/v1/ks/c {"insertOne":{"document":{"_id":1}}}
/v1/ks/c {"insertOne":{"document":{"_id":1}}}
/v1/ks/c {"deleteOne":{"filter":{"_id":2}}}
/v1/ks/c {"deleteOne":{"filter":{"_id":[1]}}}
=> 0
{"status":{"insertedIds":[1,2,3]}}
{"data":{"document":{"_id":2,"n":9,"l":[3]}},"status":{"deletedCount":1}}
{"data":{"document":null},"status":{"deletedCount":0}}
{"data":{"document":null},"status":{"deletedCount":0}}
{"data":{"document":{"_id":1,"n":5}},"status":{"deletedCount":1}}
{"data":{"document":{}},"status":{"deletedCount":1}}
{"data":{"document":null},"status":{"deletedCount":0}}
{"status":{"insertedIds":[1]}}
{"errors":[{"message":"Document 1 already exists at version 7","errorCode":"DOCUMENT_ALREADY_EXISTS"}]}
{"status":{"deletedCount":0}}
{"status":{"deletedCount":0}}
---
run --collection=c | keeper=5
/v1/ks/c {"insertOne":{"document":{"_id":"a","n":0}}}
/v1/ks/c {"findOneAndUpdate":{"update":{"$inc":{"n":1}},"options":{"returnDocument":"after"}}}
/v1/ks/c {"findOneAndUpdate":{"update":{"$inc":{"n":1}},"options":{"returnDocument":"after"}}}
=> 0
{"status":{"insertedIds":["a"]}}
{"errors":[{"message":"Store fault: 0 then 1","errorCode":"STORE_FAULT"}]}
{"data":{"document":{"_id":"a","n":1}},"status":{"matchedCount":1,"modifiedCount":1}}
---
run --collection=c | keeper=4
/v1/ks/c {"insertOne":{"document":{"_id":"a","n":0}}}
/v1/ks/c {"findOneAndReplace":{"replacement":{"n":1},"options":{"returnDocument":"after"}}}
/v1/ks/c {"findOneAndReplace":{"replacement":{"n":1},"options":{"returnDocument":"after"}}}
=> 0
{"status":{"insertedIds":["a"]}}
{"errors":[{"message":"Store fault: 0 then 1","errorCode":"STORE_FAULT"}]}
{"data":{"document":{"_id":"a","n":1}},"status":{"matchedCount":1,"modifiedCount":1}}
---
run --collection=c | keeper=5
/v1/ks/c {"insertOne":{"document":{"_id":"a","n":0}}}
/v1/ks/c {"findOneAndDelete":{}}
/v1/ks/c {"findOneAndDelete":{}}
=> 0
{"status":{"insertedIds":["a"]}}
{"errors":[{"message":"Store fault: 0 then 1","errorCode":"STORE_FAULT"}]}
{"data":{"document":{"_id":"a","n":0}},"status":{"deletedCount":1}}
---
run --collection=c | last=9223372036854775805
/v1/ks/c {"insertOne":{"document":{"_id":"a","n":0}}}
/v1/ks/c {"findOneAndUpdate":{"update":{"$inc":{"n":1}}}}
/v1/ks/c {"findOneAndUpdate":{"update":{"$inc":{"_id.x":1}}}}
/v1/ks/c {"findOneAndUpdate":{"update":{"$min":{"n":0}},"options":{"returnDocument":"after"}}}
/v1/ks/c {"findOneAndReplace":{"replacement":{"n":1}}}
/v1/ks/c {"findOneAndReplace":{"replacement":{"n":1,"_id":"b"}}}
/v1/ks/c {"findOneAndReplace":{"replacement":{"n":0}}}
/v1/ks/c {"findOneAndDelete":{}}
/v1/ks/c {"findOneAndDelete":{"filter":{"n":1}}}
/v1/ks/c {"findOne":{}}
=> 0
{"status":{"insertedIds":["a"]}}
{"errors":[{"message":"No version numbers are left","errorCode":"VERSIONS_SPENT"}]}
{"errors":[{"message":"Field _id is not changeable","errorCode":"UNSUPPORTED_UPDATE_FOR_DOC_ID"}]}
{"data":{"document":{"_id":"a","n":0}},"status":{"matchedCount":1,"modifiedCount":0}}
{"errors":[{"message":"No version numbers are left","errorCode":"VERSIONS_SPENT"}]}
{"errors":[{"message":"Field _id is not changeable","errorCode":"UNSUPPORTED_UPDATE_FOR_DOC_ID"}]}
{"data":{"document":{"_id":"a","n":0}},"status":{"matchedCount":1,"modifiedCount":0}}
{"errors":[{"message":"No version numbers are left","errorCode":"VERSIONS_SPENT"}]}
{"data":{"document":null},"status":{"deletedCount":0}}
{"data":{"document":{"_id":"a","n":0}}}
"#;
