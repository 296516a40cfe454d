// Rows of generated ids, in the form of the other rows.

// Ids that are generated. With a seed of zeros, in the first session over a new keeper, they are the UUIDs of version 4 out of the
// ChaCha20 stream with a key of zeros and the nonce 1, 16 bytes each (computed from RFC 8439 and RFC 9562, not by the program).
pub(super) const GENERATED: &str = r#"run --collection=c
/v1/ks/c {"insertOne":{"document":{}}}
/v1/ks/c {"findOne":{}}
/v1/ks/c {"insertOne":{"document":{"a b":1}}}
/v1/ks/c {"insertMany":{"documents":[{},{"_id":[1]}]}}
/v1/ks/c {"insertOne":{"document":{},"options":{}}}
/v1/ks/c {"insertMany":{"documents":[{"n":1},{"_id":"a"},{"n":2}]}}
/v1/ks/c {"findOne":{"filter":{"n":1}}}
/v1/ks/c {"findOne":{"filter":{"_id":"111e4caf-237e-453c-a8ad-6426194a8854"}}}
/v1/ks/c {"insertOne":{"document":{"_id":"111e4caf-237e-453c-a8ad-6426194a8854"}}}
/v1/ks/zz {"insertOne":{"document":{}}}
/v1/ks/c {"insertOne":{"document":{"z":1}}}
/v1/ks/c {"updateOne":{"filter":{"n":1},"update":{"$set":{"m":1}},"options":{"upsert":true}}}
/v1/ks/c {"updateOne":{"filter":{"n":5},"update":{"$set":{"m":1}},"options":{"upsert":false}}}
/v1/ks/c {"updateOne":{"filter":{"n":5},"update":{"$set":{"m":1}},"options":{"upsert":true}}}
/v1/ks/c {"findOne":{"filter":{"n":5}}}
/v1/ks/c {"updateOne":{"filter":{"_id":"b","n":6},"update":{},"options":{"upsert":true}}}
/v1/ks/c {"updateMany":{"filter":{"n":7},"update":{},"options":{"upsert":true,"pageState":"AQAAAAAAAAAUAWQxOQ=="}}}
/v1/ks/c {"updateMany":{"filter":{"n":7},"update":{"$inc":{"n":1}},"options":{"upsert":true}}}
/v1/ks/c {"findOneAndUpdate":{"filter":{"n":8,"_id":{"$in":["x","y"]}},"update":{"$inc":{"n":1}},"options":{"upsert":true,"returnDocument":"after"}}}
/v1/ks/c {"findOneAndReplace":{"filter":{"n":10,"_id":""},"replacement":{"r":1},"options":{"upsert":true,"returnDocument":"after"}}}
/v1/ks/c {"findOneAndReplace":{"filter":{"n":10,"_id.x":1},"replacement":{"r":2},"options":{"upsert":true},"projection":{"r":1}}}
/v1/ks/c {"findOneAndReplace":{"filter":{"n":10},"replacement":{"_id":"c","r":3},"options":{"upsert":true}}}
/v1/ks/c {"insertMany":{"documents":[{"_id":"a"},{"o":1},{"o":2}],"options":{"ordered":true}}}
/v1/ks/c {"insertMany":{"documents":[{"o":1},{"_id":"a"},{"o":2},{"_id":"d"}]}}
/v1/ks/c {"deleteOne":{"filter":{"_id":"ef3fdfd6-c615-48fb-b5cf-35bd3dd33b80"}}}
/v1/ks/c {"insertOne":{"document":{"_id":"ef3fdfd6-c615-48fb-b5cf-35bd3dd33b80"}}}
/v1/ks/c {"updateOne":{"filter":{"_id":{"$eq":[1]},"$and":[{"_id":"e"}]},"update":{},"options":{"upsert":true}}}
/v1/ks/c {"updateOne":{"filter":{"$or":[{"_id":"f"}],"$not":{"_id":"g"}},"update":{},"options":{"upsert":true}}}
/v1/ks/c {"updateMany":{"filter":{"o":9,"o.p":1},"update":{},"options":{"upsert":true}}}
/v1/ks/c {"insertOne":{"document":{"last":true}}}
=> 0
{"status":{"insertedIds":["ef3fdfd6-c615-48fb-b5cf-35bd3dd33b80"]}}
{"data":{"document":{"_id":"ef3fdfd6-c615-48fb-b5cf-35bd3dd33b80"}}}
{"errors":[{"message":"Member name is not allowed: a b","errorCode":"SHRED_DOC_KEY_NAME_VIOLATION"}]}
{"errors":[{"message":"Field _id is of the wrong kind","errorCode":"SHRED_BAD_DOCID_TYPE"}]}
{"errors":[{"message":"Command field invalid: options","errorCode":"COMMAND_FIELD_INVALID"}]}
{"status":{"insertedIds":["09631634-d21e-42ac-b396-0bd138e50d32","a","111e4caf-237e-453c-a8ad-6426194a8854"]}}
{"data":{"document":{"_id":"09631634-d21e-42ac-b396-0bd138e50d32","n":1}}}
{"data":{"document":{"_id":"111e4caf-237e-453c-a8ad-6426194a8854","n":2}}}
{"errors":[{"message":"Document \"111e4caf-237e-453c-a8ad-6426194a8854\" already exists at version 4","errorCode":"DOCUMENT_ALREADY_EXISTS"}]}
{"errors":[{"message":"Collection zz does not exist","errorCode":"COLLECTION_NOT_EXIST"}]}
{"status":{"insertedIds":["5305e5e4-4aff-49b2-b593-6144675efbe4"]}}
{"status":{"matchedCount":1,"modifiedCount":1}}
{"status":{"matchedCount":0,"modifiedCount":0}}
{"status":{"matchedCount":0,"modifiedCount":0,"upsertedId":"8b017c4b-9dc1-4f8a-8386-3fa803dc71d5"}}
{"data":{"document":{"_id":"8b017c4b-9dc1-4f8a-8386-3fa803dc71d5","n":5,"m":1}}}
{"status":{"matchedCount":0,"modifiedCount":0,"upsertedId":"b"}}
{"status":{"matchedCount":0,"modifiedCount":0}}
{"status":{"matchedCount":0,"modifiedCount":0,"upsertedId":"4d48a109-bb2d-4477-956e-74c25e93c3c2"}}
{"data":{"document":{"_id":"db34bf77-9470-464a-833b-8394517a5cf3","n":9}},"status":{"matchedCount":0,"modifiedCount":0,"upsertedId":"db34bf77-9470-464a-833b-8394517a5cf3"}}
{"data":{"document":{"_id":"576a6618-c855-4a45-a628-b253ef0117c9","r":1}},"status":{"matchedCount":0,"modifiedCount":0,"upsertedId":"576a6618-c855-4a45-a628-b253ef0117c9"}}
{"data":{"document":null},"status":{"matchedCount":0,"modifiedCount":0,"upsertedId":"0cd46d81-77a2-406d-96e2-0e05c05f889b"}}
{"data":{"document":null},"status":{"matchedCount":0,"modifiedCount":0,"upsertedId":"c"}}
{"errors":[{"message":"Document \"a\" already exists at version 3","errorCode":"DOCUMENT_ALREADY_EXISTS"}]}
{"status":{"insertedIds":["2a4e2cf6-938b-4b39-8828-ff20dc8fd60e","2cd17fe3-68e3-4b46-ba70-654ba93cfa62","d"]},"errors":[{"message":"Document \"a\" already exists at version 3","errorCode":"DOCUMENT_ALREADY_EXISTS"}]}
{"status":{"deletedCount":1}}
{"status":{"insertedIds":["ef3fdfd6-c615-48fb-b5cf-35bd3dd33b80"]}}
{"status":{"matchedCount":0,"modifiedCount":0,"upsertedId":"760a9d2f-26da-4818-94d8-63808e1add5f"}}
{"status":{"matchedCount":0,"modifiedCount":0,"upsertedId":"fdb76d41-efd5-44de-9424-6e03caa00895"}}
{"errors":[{"message":"Update target is of the wrong kind at o.p","errorCode":"UNSUPPORTED_UPDATE_OPERATION_TARGET"}]}
{"status":{"insertedIds":["5fdf3af2-2aea-4009-bb83-5a84faabbbce"]}}
---
run --collection=c | last=9223372036854775805
/v1/ks/c {"insertMany":{"documents":[{},{},{}]}}
/v1/ks/c {"insertOne":{"document":{}}}
/v1/ks/c {"find":{}}
=> 0
{"status":{"insertedIds":["ac92bbae-bd08-442e-9d84-4addae412e62"]},"errors":[{"message":"No version numbers are left","errorCode":"VERSIONS_SPENT"}]}
{"errors":[{"message":"No version numbers are left","errorCode":"VERSIONS_SPENT"}]}
{"data":{"documents":[{"_id":"ac92bbae-bd08-442e-9d84-4addae412e62"}],"nextPageState":null}}
---
run --collection=c
/v1/ks/c {"insertMany":{"documents":[{},{},{},{},{},{},{},{},{},{},{},{},{},{},{},{},{},{},{},{},{}]}}
/v1/ks/c {"find":{"projection":{"_id":1},"options":{"limit":3}}}
/v1/ks/c {"deleteMany":{}}
/v1/ks/c {"find":{}}
/v1/ks/c {"insertMany":{"documents":[{"n":1}]}}
=> 0
{"status":{"insertedIds":["ef3fdfd6-c615-48fb-b5cf-35bd3dd33b80","09631634-d21e-42ac-b396-0bd138e50d32","111e4caf-237e-453c-a8ad-6426194a8854","5ddc497a-0b46-4e7d-abbd-b0041b2f586b","5305e5e4-4aff-49b2-b593-6144675efbe4","409eb7e8-e5f1-430f-9f58-36aeb49bb532","8b017c4b-9dc1-4f8a-8386-3fa803dc71d5","726b2b6b-31aa-4270-8afe-5af1d6b69058","4d58792b-271e-4fdb-92c4-86051c48b79a","4d48a109-bb2d-4477-956e-74c25e93c3c2","db34bf77-9470-464a-833b-8394517a5cf3","576a6618-c855-4a45-a628-b253ef0117c9","0cd46d81-77a2-406d-96e2-0e05c05f889b","f87e95d6-ee8a-4380-bd1c-d53d586872b1","259d0647-da7b-4aae-80af-9b3aad41ad5a","8141d2e1-56c9-4d52-a3bd-2ae165bd7d6a","2a4e2cf6-938b-4b39-8828-ff20dc8fd60e","2cd17fe3-68e3-4b46-ba70-654ba93cfa62","760a9d2f-26da-4818-94d8-63808e1add5f","fdb76d41-efd5-44de-9424-6e03caa00895","0c91dedf-c9a8-4681-b3fe-481c4d3d3c21"]}}
{"data":{"documents":[{"_id":"09631634-d21e-42ac-b396-0bd138e50d32"},{"_id":"0c91dedf-c9a8-4681-b3fe-481c4d3d3c21"},{"_id":"0cd46d81-77a2-406d-96e2-0e05c05f889b"}],"nextPageState":null}}
{"status":{"deletedCount":20,"moreData":true}}
{"data":{"documents":[{"_id":"fdb76d41-efd5-44de-9424-6e03caa00895"}],"nextPageState":null}}
{"status":{"insertedIds":["5fdf3af2-2aea-4009-bb83-5a84faabbbce"]}}
"#;
