// Rows of insertions, in the form of the other rows.

// Many documents at once: doubles, in order or not; numbers that run out and calls that fail behind doubles and writes.
pub(super) const INSERTIONS: &str = r#"run --collection=c
/v1/ks/c {"insertMany":{"documents":[{"_id":"a"},{"_id":"a"},{"_id":2}]}}
/v1/ks/c {"find":{}}
=> 0
{"status":{"insertedIds":["a",2]},"errors":[{"message":"Document \"a\" already exists at version 1","errorCode":"DOCUMENT_ALREADY_EXISTS"}]}
{"data":{"documents":[{"_id":"a"},{"_id":2}],"nextPageState":null}}
---
run --collection=c
/v1/ks/c {"insertMany":{"documents":[{"_id":"a"},{"_id":"a"},{"_id":2}],"options":{"ordered":true}}}
/v1/ks/c {"find":{}}
/v1/ks/c {"insertMany":{"documents":[{"_id":2},{"_id":"b","n":1}],"options":{"ordered":true}}}
/v1/ks/c {"insertMany":{"documents":[{"_id":"b"},{"_id":5}],"options":{"ordered":true}}}
/v1/ks/c {"insertMany":{"documents":[{"_id":5},{"_id":"b"},{"_id":2},{"_id":6}],"options":{"ordered":false}}}
/v1/ks/c {"insertMany":{"documents":[{"_id":6.0},{"_id":5},{"_id":"a"}],"options":{}}}
/v1/ks/c {"insertMany":{"documents":[{"_id":{"$date":0},"t":[]},{"_id":null},{"_id":false},{"_id":"0"},{"n":{"a":1},"_id":0}]}}
/v1/ks/c {"insertOne":{"document":{"_id":0}}}
/v1/ks/c {"find":{"projection":{"n":1}}}
/v1/ks/c {"deleteOne":{"filter":{"_id":5}}}
/v1/ks/c {"insertMany":{"documents":[{"_id":5},{"_id":5}]}}
/v1/ks/c {"insertMany":{"documents":[{"_id":7},{"_id":[7]}]}}
/v1/ks/c {"countDocuments":{"filter":{"_id":7}}}
=> 0
{"status":{"insertedIds":["a"]},"errors":[{"message":"Document \"a\" already exists at version 1","errorCode":"DOCUMENT_ALREADY_EXISTS"}]}
{"data":{"documents":[{"_id":"a"}],"nextPageState":null}}
{"status":{"insertedIds":[2,"b"]}}
{"errors":[{"message":"Document \"b\" already exists at version 3","errorCode":"DOCUMENT_ALREADY_EXISTS"}]}
{"status":{"insertedIds":[5,6]},"errors":[{"message":"Document \"b\" already exists at version 3","errorCode":"DOCUMENT_ALREADY_EXISTS"},{"message":"Document 2 already exists at version 2","errorCode":"DOCUMENT_ALREADY_EXISTS"}]}
{"errors":[{"message":"Document 6 already exists at version 5","errorCode":"DOCUMENT_ALREADY_EXISTS"},{"message":"Document 5 already exists at version 4","errorCode":"DOCUMENT_ALREADY_EXISTS"},{"message":"Document \"a\" already exists at version 1","errorCode":"DOCUMENT_ALREADY_EXISTS"}]}
{"status":{"insertedIds":[{"$date":0},null,false,"0",0]}}
{"errors":[{"message":"Document 0 already exists at version 10","errorCode":"DOCUMENT_ALREADY_EXISTS"}]}
{"data":{"documents":[{"_id":"0"},{"_id":"a"},{"_id":"b","n":1},{"n":{"a":1},"_id":0},{"_id":2},{"_id":5},{"_id":6},{"_id":false},{"_id":null},{"_id":{"$date":0}}],"nextPageState":null}}
{"status":{"deletedCount":1}}
{"status":{"insertedIds":[5]},"errors":[{"message":"Document 5 already exists at version 12","errorCode":"DOCUMENT_ALREADY_EXISTS"}]}
{"errors":[{"message":"Field _id is of the wrong kind","errorCode":"SHRED_BAD_DOCID_TYPE"}]}
{"status":{"count":0}}
---
run --collection=c | keeper=4
/v1/ks/c {"insertMany":{"documents":[{"_id":1},{"_id":2},{"_id":3}]}}
/v1/ks/c {"insertMany":{"documents":[{"_id":1},{"_id":2},{"_id":3}]}}
=> 0
{"status":{"insertedIds":[1]},"errors":[{"message":"Store fault: 0 then 1","errorCode":"STORE_FAULT"}]}
{"status":{"insertedIds":[2,3]},"errors":[{"message":"Document 1 already exists at version 1","errorCode":"DOCUMENT_ALREADY_EXISTS"}]}
---
run --collection=c | keeper=3
/v1/ks/c {"insertMany":{"documents":[{"_id":1},{"_id":2}]}}
/v1/ks/c {"countDocuments":{}}
=> 0
{"errors":[{"message":"Store fault: 0 then 1","errorCode":"STORE_FAULT"}]}
{"status":{"count":0}}
---
run --collection=c | keeper=6
/v1/ks/c {"insertMany":{"documents":[{"_id":1},{"_id":1},{"_id":1},{"_id":2},{"_id":3}]}}
/v1/ks/c {"find":{}}
=> 0
{"status":{"insertedIds":[1]},"errors":[{"message":"Document 1 already exists at version 1","errorCode":"DOCUMENT_ALREADY_EXISTS"},{"message":"Document 1 already exists at version 1","errorCode":"DOCUMENT_ALREADY_EXISTS"},{"message":"Store fault: 0 then 1","errorCode":"STORE_FAULT"}]}
{"data":{"documents":[{"_id":1}],"nextPageState":null}}
---
run --collection=c | last=9223372036854775805
/v1/ks/c {"insertMany":{"documents":[{"_id":1},{"_id":1},{"_id":2}]}}
/v1/ks/c {"insertMany":{"documents":[{"_id":1}]}}
/v1/ks/zz {"insertMany":{"documents":[{"_id":1}]}}
/v1/ks/zz {"insertMany":{"documents":[{"_id":[1]}]}}
=> 0
{"status":{"insertedIds":[1]},"errors":[{"message":"No version numbers are left","errorCode":"VERSIONS_SPENT"}]}
{"errors":[{"message":"No version numbers are left","errorCode":"VERSIONS_SPENT"}]}
{"errors":[{"message":"No version numbers are left","errorCode":"VERSIONS_SPENT"}]}
{"errors":[{"message":"Field _id is of the wrong kind","errorCode":"SHRED_BAD_DOCID_TYPE"}]}
---
run --collection=c | last=9223372036854775804
/v1/ks/c {"insertOne":{"document":{"_id":1}}}
/v1/ks/c {"insertMany":{"documents":[{"_id":1},{"_id":2},{"_id":3},{"_id":1}]}}
/v1/ks/c {"find":{}}
=> 0
{"status":{"insertedIds":[1]}}
{"status":{"insertedIds":[2]},"errors":[{"message":"Document 1 already exists at version 9223372036854775805","errorCode":"DOCUMENT_ALREADY_EXISTS"},{"message":"No version numbers are left","errorCode":"VERSIONS_SPENT"}]}
{"data":{"documents":[{"_id":1},{"_id":2}],"nextPageState":null}}
"#;

// What is inserted where nothing matches: by an update, with what the filter asks for, and by a replacement.
pub(super) const UPSERTS: &str = r#"run --collection=c
/v1/ks/c {"updateOne":{"filter":{"_id":"u","k":5},"update":{"$setOnInsert":{"w":2},"$set":{"v":1}},"options":{"upsert":true}}}
/v1/ks/c {"findOne":{}}
/v1/ks/c {"updateOne":{"filter":{"_id":"u","k":5},"update":{"$setOnInsert":{"w":3},"$set":{"v":1}},"options":{"upsert":true}}}
/v1/ks/c {"updateOne":{"filter":{"_id":"u","k":5},"update":{"$setOnInsert":{"w":3},"$set":{"v":2}},"options":{"upsert":true}}}
/v1/ks/c {"updateOne":{"filter":{"_id":"u","k":6},"update":{"$set":{"v":1}},"options":{"upsert":true}}}
/v1/ks/c {"updateOne":{"filter":{"_id":"x","k":6},"update":{"$set":{"v":1}},"options":{"upsert":false}}}
/v1/ks/c {"updateOne":{"filter":{"_id":"x","k":6},"update":{"$set":{"v":1}}}}
/v1/ks/c {"find":{}}
/v1/ks/zz {"updateOne":{"filter":{"_id":"u"},"update":{},"options":{"upsert":true}}}
=> 0
{"status":{"matchedCount":0,"modifiedCount":0,"upsertedId":"u"}}
{"data":{"document":{"_id":"u","k":5,"v":1,"w":2}}}
{"status":{"matchedCount":1,"modifiedCount":0}}
{"status":{"matchedCount":1,"modifiedCount":1}}
{"errors":[{"message":"Document \"u\" already exists at version 2","errorCode":"DOCUMENT_ALREADY_EXISTS"}]}
{"status":{"matchedCount":0,"modifiedCount":0}}
{"status":{"matchedCount":0,"modifiedCount":0}}
{"data":{"documents":[{"_id":"u","k":5,"v":2,"w":2}],"nextPageState":null}}
{"errors":[{"message":"Collection zz does not exist","errorCode":"COLLECTION_NOT_EXIST"}]}
---
run --collection=c
/v1/ks/c {"updateOne":{"filter":{"_id":{"$eq":7},"a.b":1,"a.c":{"$exists":true,"$eq":[1]},"n":{"$gt":5},"t":{"$in":["x"]},"$or":[{"o":1}],"$not":{"q":1},"$and":[{"d":{"$date":5}},{"$and":[{"e":null,"_id":8}]}],"l":{"$all":[1]}},"update":{},"options":{"upsert":true}}}
/v1/ks/c {"findOne":{}}
/v1/ks/c {"updateOne":{"filter":{"_id":1,"a":1,"$and":[{"a":2}]},"update":{},"options":{"upsert":true}}}
/v1/ks/c {"updateOne":{"filter":{"_id":2,"a.b":2,"a":{"c":1}},"update":{},"options":{"upsert":true}}}
/v1/ks/c {"updateOne":{"filter":{"_id":3,"l":[1,2],"l.0":9,"l.3.x":8},"update":{},"options":{"upsert":true}}}
/v1/ks/c {"updateOne":{"filter":{"z":{},"_id":4,"l":[],"l.2":1},"update":{},"options":{"upsert":true}}}
/v1/ks/c {"find":{"filter":{"_id":{"$lt":5}}}}
/v1/ks/c {"updateOne":{"filter":{"_id":5,"a":1,"a.b":2},"update":{},"options":{"upsert":true}}}
/v1/ks/c {"updateOne":{"filter":{"_id":5,"l":[1],"l.x":9},"update":{},"options":{"upsert":true}}}
/v1/ks/c {"updateOne":{"filter":{"_id":5,"l":[1],"l.01":9},"update":{},"options":{"upsert":true}}}
/v1/ks/c {"updateOne":{"filter":{"_id":5,"l":[1],"l.1000":9},"update":{},"options":{"upsert":true}}}
/v1/ks/c {"updateOne":{"filter":{"_id":5,"a":{"b c":1}},"update":{},"options":{"upsert":true}}}
/v1/ks/c {"updateOne":{"filter":{"_id":5,"a":{"$eq":{"$x":1}}},"update":{},"options":{"upsert":true}}}
/v1/ks/c {"updateOne":{"filter":{"_id":5,"a":[{"":1}]},"update":{},"options":{"upsert":true}}}
/v1/ks/c {"updateOne":{"filter":{"_id":5,"a":{"$eq":{"$date":1.5}}},"update":{},"options":{"upsert":true}}}
/v1/ks/c {"updateOne":{"filter":{"_id":5,"b":1,"b.c":{"":1},"d":{"":1}},"update":{},"options":{"upsert":true}}}
/v1/ks/c {"updateOne":{"filter":{"_id":5,"a":null,"a.b":1},"update":{},"options":{"upsert":true}}}
/v1/ks/c {"updateOne":{"filter":{"_id":5,"_id.x":{"":1},"a.b.c.d.e.f.g.h.i.j.k.l.m.n.o.p":1},"update":{},"options":{"upsert":true}}}
/v1/ks/c {"updateOne":{"filter":{"_id":6,"a.b.c.d.e.f.g.h.i.j.k.l.m.n.o.p.q":1},"update":{},"options":{"upsert":true}}}
/v1/ks/c {"countDocuments":{}}
=> 0
{"status":{"matchedCount":0,"modifiedCount":0,"upsertedId":7}}
{"data":{"document":{"_id":7,"a":{"b":1,"c":[1]},"d":{"$date":5},"e":null}}}
{"status":{"matchedCount":0,"modifiedCount":0,"upsertedId":1}}
{"status":{"matchedCount":0,"modifiedCount":0,"upsertedId":2}}
{"status":{"matchedCount":0,"modifiedCount":0,"upsertedId":3}}
{"status":{"matchedCount":0,"modifiedCount":0,"upsertedId":4}}
{"data":{"documents":[{"_id":1,"a":2},{"_id":2,"a":{"c":1}},{"_id":3,"l":[9,2,null,{"x":8}]},{"_id":4,"z":{},"l":[null,null,1]}],"nextPageState":null}}
{"errors":[{"message":"Update target is of the wrong kind at a.b","errorCode":"UNSUPPORTED_UPDATE_OPERATION_TARGET"}]}
{"errors":[{"message":"Update target is of the wrong kind at l.x","errorCode":"UNSUPPORTED_UPDATE_OPERATION_TARGET"}]}
{"errors":[{"message":"Update target is of the wrong kind at l.01","errorCode":"UNSUPPORTED_UPDATE_OPERATION_TARGET"}]}
{"errors":[{"message":"Update target is of the wrong kind at l.1000","errorCode":"UNSUPPORTED_UPDATE_OPERATION_TARGET"}]}
{"errors":[{"message":"Update target is of the wrong kind at a","errorCode":"UNSUPPORTED_UPDATE_OPERATION_TARGET"}]}
{"errors":[{"message":"Update target is of the wrong kind at a","errorCode":"UNSUPPORTED_UPDATE_OPERATION_TARGET"}]}
{"errors":[{"message":"Update target is of the wrong kind at a","errorCode":"UNSUPPORTED_UPDATE_OPERATION_TARGET"}]}
{"errors":[{"message":"Update target is of the wrong kind at a","errorCode":"UNSUPPORTED_UPDATE_OPERATION_TARGET"}]}
{"errors":[{"message":"Update target is of the wrong kind at b.c","errorCode":"UNSUPPORTED_UPDATE_OPERATION_TARGET"}]}
{"errors":[{"message":"Update target is of the wrong kind at a.b","errorCode":"UNSUPPORTED_UPDATE_OPERATION_TARGET"}]}
{"status":{"matchedCount":0,"modifiedCount":0,"upsertedId":5}}
{"errors":[{"message":"Document limit 2 is 16, found 17","errorCode":"SHRED_DOC_LIMIT_VIOLATION"}]}
{"status":{"count":6}}
---
run --collection=c
/v1/ks/c {"updateOne":{"filter":{"_id":null},"update":{},"options":{"upsert":true}}}
/v1/ks/c {"updateOne":{"filter":{"_id":{"$date":7}},"update":{},"options":{"upsert":true}}}
/v1/ks/c {"updateOne":{"filter":{"_id":{"$eq":false,"$ne":true}},"update":{},"options":{"upsert":true}}}
/v1/ks/c {"updateOne":{"filter":{"_id":1.50},"update":{},"options":{"upsert":true}}}
/v1/ks/c {"updateOne":{"filter":{"_id":15e-1},"update":{},"options":{"upsert":true}}}
/v1/ks/c {"updateOne":{"filter":{"$and":[{"_id":"x"},{"_id":"y"}]},"update":{},"options":{"upsert":true}}}
/v1/ks/c {"updateOne":{"filter":{"$and":[{"_id":"x"},{"_id":"y"}]},"update":{},"options":{"upsert":true}}}
/v1/ks/c {"updateOne":{"filter":{"$or":[{"_id":"q"},{"_id":"x"}]},"update":{},"options":{"upsert":true}}}
/v1/ks/c {"find":{}}
=> 0
{"status":{"matchedCount":0,"modifiedCount":0,"upsertedId":null}}
{"status":{"matchedCount":0,"modifiedCount":0,"upsertedId":{"$date":7}}}
{"status":{"matchedCount":0,"modifiedCount":0,"upsertedId":false}}
{"status":{"matchedCount":0,"modifiedCount":0,"upsertedId":1.5}}
{"status":{"matchedCount":1,"modifiedCount":0}}
{"status":{"matchedCount":0,"modifiedCount":0,"upsertedId":"x"}}
{"errors":[{"message":"Document \"x\" already exists at version 5","errorCode":"DOCUMENT_ALREADY_EXISTS"}]}
{"status":{"matchedCount":1,"modifiedCount":0}}
{"data":{"documents":[{"_id":"x"},{"_id":1.5},{"_id":false},{"_id":null},{"_id":{"$date":7}}],"nextPageState":null}}
---
run --collection=c
/v1/ks/c {"updateOne":{"filter":{"_id":1,"k":1,"s":"x","t":2},"update":{"$inc":{"i":2},"$mul":{"m":3},"$min":{"a.b":4},"$rename":{"k":"r"},"$push":{"p":{"$each":[1,2],"$position":0}},"$pop":{"q":1},"$addToSet":{"v":1},"$unset":{"t":1},"$currentDate":{"at":true}},"options":{"upsert":true}}}
/v1/ks/c {"findOne":{}}
/v1/ks/c {"updateOne":{"filter":{"_id":2,"s":"x"},"update":{"$inc":{"s":1}},"options":{"upsert":true}}}
/v1/ks/c {"updateOne":{"filter":{"_id":2,"a":1},"update":{"$setOnInsert":{"a.b":2}},"options":{"upsert":true}}}
/v1/ks/c {"updateOne":{"filter":{"_id":2,"m":10000000000000000000},"update":{"$mul":{"m":10000000000000000000}},"options":{"upsert":true}}}
/v1/ks/c {"updateOne":{"filter":{"_id":2,"m":1},"update":{"$setOnInsert":{"m":{"x":2}},"$set":{"y":1}},"options":{"upsert":true}}}
/v1/ks/c {"findOne":{"filter":{"_id":2}}}
/v1/ks/c {"updateOne":{"filter":{"_id":3,"m":1},"update":{"$set":{"_id":3}},"options":{"upsert":true}}}
/v1/ks/c {"updateOne":{"filter":{"_id":3,"m":{"$near":1}},"update":{},"options":{"upsert":true}}}
/v1/ks/c {"updateOne":{"filter":{"_id":3,"m":1},"update":{"$set":{"m.n":1}},"options":{"upsert":true}}}
/v1/ks/c {"updateOne":{"filter":{"_id":3,"tags":["a"]},"update":{"$addToSet":{"tags":"a"},"$push":{"log":1}},"options":{"upsert":true}}}
/v1/ks/c {"findOne":{"filter":{"_id":3}}}
=> 0
{"status":{"matchedCount":0,"modifiedCount":0,"upsertedId":1}}
{"data":{"document":{"_id":1,"s":"x","i":2,"m":0,"a":{"b":4},"r":1,"p":[1,2],"v":[1],"at":{"$date":1700000000001}}}}
{"errors":[{"message":"Update target is of the wrong kind at s","errorCode":"UNSUPPORTED_UPDATE_OPERATION_TARGET"}]}
{"errors":[{"message":"Update target is of the wrong kind at a.b","errorCode":"UNSUPPORTED_UPDATE_OPERATION_TARGET"}]}
{"errors":[{"message":"Number is out of range at m","errorCode":"NUMBER_OUT_OF_RANGE"}]}
{"status":{"matchedCount":0,"modifiedCount":0,"upsertedId":2}}
{"data":{"document":{"_id":2,"m":{"x":2},"y":1}}}
{"errors":[{"message":"Field _id is not changeable","errorCode":"UNSUPPORTED_UPDATE_FOR_DOC_ID"}]}
{"errors":[{"message":"Filter operator $near is not supported","errorCode":"UNSUPPORTED_FILTER_OPERATION"}]}
{"errors":[{"message":"Update target is of the wrong kind at m.n","errorCode":"UNSUPPORTED_UPDATE_OPERATION_TARGET"}]}
{"status":{"matchedCount":0,"modifiedCount":0,"upsertedId":3}}
{"data":{"document":{"_id":3,"tags":["a"],"log":[1]}}}
---
run --collection=c
/v1/ks/c {"updateMany":{"filter":{"_id":1,"k":1},"update":{"$set":{"n":1}},"options":{"upsert":true}}}
/v1/ks/c {"updateMany":{"filter":{"k":1},"update":{"$set":{"n":1}},"options":{"upsert":true}}}
/v1/ks/c {"updateMany":{"filter":{"k":1},"update":{"$set":{"n":2}},"options":{"upsert":true}}}
/v1/ks/c {"updateMany":{"filter":{"_id":1,"k":2},"update":{"$set":{"n":1}},"options":{"upsert":true}}}
/v1/ks/c {"updateMany":{"filter":{"_id":2,"k":2},"update":{},"options":{"upsert":true,"pageState":null}}}
/v1/ks/c {"updateMany":{"filter":{"_id":3,"k":3},"update":{},"options":{"upsert":true,"pageState":"AQAAAAAAAAAUAWQxOQ=="}}}
/v1/ks/c {"updateMany":{"filter":{"_id":3,"k":3},"update":{},"options":{"upsert":false}}}
/v1/ks/c {"updateMany":{"filter":{"_id":3,"k":3,"k.l":4},"update":{},"options":{"upsert":true}}}
/v1/ks/c {"updateMany":{"filter":{"k":{"$lt":3}},"update":{"$inc":{"k":5}},"options":{"upsert":true}}}
/v1/ks/c {"updateMany":{"filter":{"k":{"$lt":3},"$and":[{"_id":{"$eq":"m"}}]},"update":{"$inc":{"k":5}},"options":{"upsert":true}}}
/v1/ks/c {"find":{}}
=> 0
{"status":{"matchedCount":0,"modifiedCount":0,"upsertedId":1}}
{"status":{"matchedCount":1,"modifiedCount":0}}
{"status":{"matchedCount":1,"modifiedCount":1}}
{"errors":[{"message":"Document 1 already exists at version 2","errorCode":"DOCUMENT_ALREADY_EXISTS"}]}
{"status":{"matchedCount":0,"modifiedCount":0,"upsertedId":2}}
{"status":{"matchedCount":0,"modifiedCount":0}}
{"status":{"matchedCount":0,"modifiedCount":0}}
{"errors":[{"message":"Update target is of the wrong kind at k.l","errorCode":"UNSUPPORTED_UPDATE_OPERATION_TARGET"}]}
{"status":{"matchedCount":2,"modifiedCount":2}}
{"status":{"matchedCount":0,"modifiedCount":0,"upsertedId":"m"}}
{"data":{"documents":[{"_id":"m","k":5},{"_id":1,"k":6,"n":2},{"_id":2,"k":7}],"nextPageState":null}}
---
run --collection=c
/v1/ks/c {"findOneAndUpdate":{"filter":{"_id":1,"k":1},"update":{"$set":{"n":1}},"options":{"upsert":true}}}
/v1/ks/c {"findOneAndUpdate":{"filter":{"_id":2,"k":1},"update":{"$set":{"n":1}},"options":{"upsert":true,"returnDocument":"before"}}}
/v1/ks/c {"findOneAndUpdate":{"filter":{"_id":3,"k":1},"update":{"$set":{"n":1},"$setOnInsert":{"w":1}},"options":{"upsert":true,"returnDocument":"after"}}}
/v1/ks/c {"findOneAndUpdate":{"filter":{"_id":4,"k":1},"update":{"$set":{"n":1}},"options":{"upsert":true,"returnDocument":"after"},"projection":{"k":1,"_id":0}}}
/v1/ks/c {"findOneAndUpdate":{"filter":{"_id":4,"k":1},"update":{"$set":{"n":2}},"options":{"upsert":true,"returnDocument":"after"},"projection":{"k":0}}}
/v1/ks/c {"findOneAndUpdate":{"filter":{"_id":4,"k":2},"update":{"$set":{"n":2}},"options":{"upsert":true,"returnDocument":"after"}}}
/v1/ks/c {"findOneAndUpdate":{"filter":{"_id":5,"k":2,"k.x":1},"update":{"$set":{"n":2}},"options":{"upsert":true,"returnDocument":"after"}}}
/v1/ks/c {"findOneAndUpdate":{"filter":{"k":1},"update":{"$inc":{"n":1}},"options":{"upsert":true,"returnDocument":"after"},"sort":{"n":-1,"_id":-1}}}
/v1/ks/zz {"findOneAndUpdate":{"filter":{"_id":1},"update":{},"options":{"upsert":true,"returnDocument":"after"}}}
=> 0
{"data":{"document":null},"status":{"matchedCount":0,"modifiedCount":0,"upsertedId":1}}
{"data":{"document":null},"status":{"matchedCount":0,"modifiedCount":0,"upsertedId":2}}
{"data":{"document":{"_id":3,"k":1,"n":1,"w":1}},"status":{"matchedCount":0,"modifiedCount":0,"upsertedId":3}}
{"data":{"document":{"k":1}},"status":{"matchedCount":0,"modifiedCount":0,"upsertedId":4}}
{"data":{"document":{"_id":4,"n":2}},"status":{"matchedCount":1,"modifiedCount":1}}
{"errors":[{"message":"Document 4 already exists at version 5","errorCode":"DOCUMENT_ALREADY_EXISTS"}]}
{"errors":[{"message":"Update target is of the wrong kind at k.x","errorCode":"UNSUPPORTED_UPDATE_OPERATION_TARGET"}]}
{"data":{"document":{"_id":4,"k":1,"n":3}},"status":{"matchedCount":1,"modifiedCount":1}}
{"errors":[{"message":"Collection zz does not exist","errorCode":"COLLECTION_NOT_EXIST"}]}
---
run --collection=c
/v1/ks/c {"findOneAndReplace":{"filter":{"_id":1,"k":1},"replacement":{"n":1},"options":{"upsert":true}}}
/v1/ks/c {"findOneAndReplace":{"filter":{"_id":2,"k":1},"replacement":{"n":1},"options":{"upsert":true,"returnDocument":"after"}}}
/v1/ks/c {"findOneAndReplace":{"filter":{"k":1},"replacement":{"n":1,"_id":"r"},"options":{"upsert":true,"returnDocument":"after"}}}
/v1/ks/c {"findOneAndReplace":{"filter":{"_id":3},"replacement":{"n":1,"_id":3.0},"options":{"upsert":true,"returnDocument":"after"},"projection":{"_id":1}}}
/v1/ks/c {"findOneAndReplace":{"filter":{"_id":4},"replacement":{"n":1,"_id":5},"options":{"upsert":true,"returnDocument":"after"}}}
/v1/ks/c {"findOneAndReplace":{"filter":{"_id":4},"replacement":{"":1,"_id":5},"options":{"upsert":true,"returnDocument":"after"}}}
/v1/ks/c {"findOneAndReplace":{"filter":{"_id":4},"replacement":{"":1,"_id":4},"options":{"upsert":true,"returnDocument":"after"}}}
/v1/ks/c {"findOneAndReplace":{"filter":{"_id":4},"replacement":{"":1},"options":{"upsert":true,"returnDocument":"after"}}}
/v1/ks/c {"findOneAndReplace":{"filter":{"_id":[4]},"replacement":{"_id":5},"options":{"upsert":true,"returnDocument":"after"}}}
/v1/ks/c {"findOneAndReplace":{"filter":{"_id":""},"replacement":{"_id":6},"options":{"upsert":true,"returnDocument":"after"}}}
/v1/ks/c {"findOneAndReplace":{"filter":{"$and":[{"_id":[4]},{"_id":9}]},"replacement":{"_id":7},"options":{"upsert":true,"returnDocument":"after"}}}
/v1/ks/c {"findOneAndReplace":{"filter":{"$and":[{"_id":8},{"_id":9}]},"replacement":{"_id":9},"options":{"upsert":true,"returnDocument":"after"}}}
/v1/ks/c {"findOneAndReplace":{"filter":{"_id":8,"a":{"b c":1},"a.b":{"":1}},"replacement":{"z":null},"options":{"upsert":true,"returnDocument":"after"}}}
/v1/ks/c {"findOneAndReplace":{"filter":{"_id":8,"z":1},"replacement":{"z":null},"options":{"upsert":true,"returnDocument":"after"}}}
/v1/ks/c {"findOneAndReplace":{"filter":{"_id":"r","k":2},"replacement":{"_id":"r"},"options":{"upsert":true,"returnDocument":"after"}}}
/v1/ks/c {"findOneAndReplace":{"filter":{"k":2},"replacement":{"_id":"r"},"options":{"upsert":true,"returnDocument":"after"}}}
/v1/ks/c {"find":{"projection":{"_id":1}}}
=> 0
{"data":{"document":null},"status":{"matchedCount":0,"modifiedCount":0,"upsertedId":1}}
{"data":{"document":{"_id":2,"n":1}},"status":{"matchedCount":0,"modifiedCount":0,"upsertedId":2}}
{"data":{"document":{"n":1,"_id":"r"}},"status":{"matchedCount":0,"modifiedCount":0,"upsertedId":"r"}}
{"data":{"document":{"_id":3}},"status":{"matchedCount":0,"modifiedCount":0,"upsertedId":3}}
{"errors":[{"message":"Field _id is not changeable","errorCode":"UNSUPPORTED_UPDATE_FOR_DOC_ID"}]}
{"errors":[{"message":"Field _id is not changeable","errorCode":"UNSUPPORTED_UPDATE_FOR_DOC_ID"}]}
{"errors":[{"message":"Document limit 3 is 1, found 0","errorCode":"SHRED_DOC_LIMIT_VIOLATION"}]}
{"errors":[{"message":"Document limit 3 is 1, found 0","errorCode":"SHRED_DOC_LIMIT_VIOLATION"}]}
{"data":{"document":{"_id":5}},"status":{"matchedCount":0,"modifiedCount":0,"upsertedId":5}}
{"data":{"document":{"_id":6}},"status":{"matchedCount":0,"modifiedCount":0,"upsertedId":6}}
{"data":{"document":{"_id":7}},"status":{"matchedCount":0,"modifiedCount":0,"upsertedId":7}}
{"errors":[{"message":"Field _id is not changeable","errorCode":"UNSUPPORTED_UPDATE_FOR_DOC_ID"}]}
{"data":{"document":{"_id":8,"z":null}},"status":{"matchedCount":0,"modifiedCount":0,"upsertedId":8}}
{"errors":[{"message":"Document 8 already exists at version 8","errorCode":"DOCUMENT_ALREADY_EXISTS"}]}
{"errors":[{"message":"Document \"r\" already exists at version 3","errorCode":"DOCUMENT_ALREADY_EXISTS"}]}
{"errors":[{"message":"Document \"r\" already exists at version 3","errorCode":"DOCUMENT_ALREADY_EXISTS"}]}
{"data":{"documents":[{"_id":"r"},{"_id":1},{"_id":2},{"_id":3},{"_id":5},{"_id":6},{"_id":7},{"_id":8}],"nextPageState":null}}
---
run --collection=c | keeper=4
/v1/ks/c {"updateOne":{"filter":{"_id":1},"update":{},"options":{"upsert":true}}}
/v1/ks/c {"countDocuments":{}}
/v1/ks/c {"updateOne":{"filter":{"_id":1},"update":{},"options":{"upsert":true}}}
=> 0
{"errors":[{"message":"Store fault: 0 then 1","errorCode":"STORE_FAULT"}]}
{"status":{"count":0}}
{"status":{"matchedCount":0,"modifiedCount":0,"upsertedId":1}}
---
run --collection=c | keeper=4
/v1/ks/c {"updateMany":{"filter":{"_id":1},"update":{},"options":{"upsert":true}}}
/v1/ks/c {"updateMany":{"filter":{"_id":1},"update":{},"options":{"upsert":true}}}
=> 0
{"errors":[{"message":"Store fault: 0 then 1","errorCode":"STORE_FAULT"}]}
{"status":{"matchedCount":0,"modifiedCount":0,"upsertedId":1}}
---
run --collection=c | keeper=3
/v1/ks/c {"findOneAndReplace":{"filter":{"_id":1},"replacement":{},"options":{"upsert":true,"returnDocument":"after"}}}
/v1/ks/c {"findOneAndReplace":{"filter":{"_id":1},"replacement":{},"options":{"upsert":true,"returnDocument":"after"}}}
=> 0
{"errors":[{"message":"Store fault: 0 then 1","errorCode":"STORE_FAULT"}]}
{"data":{"document":{"_id":1}},"status":{"matchedCount":0,"modifiedCount":0,"upsertedId":1}}
---
run --collection=c | last=9223372036854775806
/v1/ks/c {"updateOne":{"filter":{"_id":1},"update":{},"options":{"upsert":true}}}
/v1/ks/c {"updateOne":{"filter":{"_id":1,"a":1,"a.b":1},"update":{},"options":{"upsert":true}}}
/v1/ks/c {"updateMany":{"filter":{"_id":1},"update":{},"options":{"upsert":true}}}
/v1/ks/c {"updateMany":{"filter":{"_id":1},"update":{},"options":{"upsert":true,"pageState":"AQAAAAAAAAAUAWQxOQ=="}}}
/v1/ks/c {"findOneAndUpdate":{"filter":{"_id":1},"update":{},"options":{"upsert":true,"returnDocument":"after"}}}
/v1/ks/c {"findOneAndReplace":{"filter":{"_id":1},"replacement":{},"options":{"upsert":true,"returnDocument":"after"}}}
/v1/ks/c {"findOneAndReplace":{"filter":{"_id":1},"replacement":{"_id":2},"options":{"upsert":true,"returnDocument":"after"}}}
/v1/ks/zz {"updateOne":{"filter":{"_id":1},"update":{},"options":{"upsert":true}}}
=> 0
{"errors":[{"message":"No version numbers are left","errorCode":"VERSIONS_SPENT"}]}
{"errors":[{"message":"Update target is of the wrong kind at a.b","errorCode":"UNSUPPORTED_UPDATE_OPERATION_TARGET"}]}
{"errors":[{"message":"No version numbers are left","errorCode":"VERSIONS_SPENT"}]}
{"status":{"matchedCount":0,"modifiedCount":0}}
{"errors":[{"message":"No version numbers are left","errorCode":"VERSIONS_SPENT"}]}
{"errors":[{"message":"No version numbers are left","errorCode":"VERSIONS_SPENT"}]}
{"errors":[{"message":"Field _id is not changeable","errorCode":"UNSUPPORTED_UPDATE_FOR_DOC_ID"}]}
{"errors":[{"message":"Collection zz does not exist","errorCode":"COLLECTION_NOT_EXIST"}]}
"#;
