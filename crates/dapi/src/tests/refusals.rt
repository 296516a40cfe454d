// Rows of refusals, in the form of the other rows.

// Each command's refusals, in the order in which they are tested: each request has the fault that it is refused for and,
// mostly, all those that are tested later.
pub(super) const REFUSALS: &str = r#"run --collection=c
/v1/ot/9c {"insertOne":[{"_id":[1]}]
/v1/ot {"insertOne":[{"_id":[1]}]}
/v1/ot/9c {"insertOne":[{"_id":[1]}],"x":1}
/v1/ot/9c {"insertOne":[{"_id":[1]}]}
/v1/ks/9c {"insertOne":[{"_id":[1]}]}
/v1/ks/zz {"insertOne":[{"_id":[1]}]}
/v1/ks/zz {"insertOne":{"$date":1}}
/v1/ks/zz {"insertOne":{"documents":[{"_id":[1]}]}}
/v1/ks/zz {"insertOne":{"document":{"_id":[1]},"options":{}}}
/v1/ks/zz {"insertOne":{"document":[{"_id":[1]}]}}
/v1/ks/zz {"insertOne":{"document":{"$date":1}}}
/v1/ks/zz {"insertOne":{}}
/v1/ks/zz {"insertOne":{"document":{"":{"a b":1},"_id":[1]}}}
/v1/ks/zz {"insertOne":{"document":{"":{"a b":1},"_id":{}}}}
/v1/ks/zz {"insertOne":{"document":{"":{"a b":1},"_id":""}}}
/v1/ks/zz {"insertOne":{"document":{"":{"a b":1,"c d":1},"_id":{"$date":1}}}}
/v1/ks/zz {"insertOne":{"document":{"a":{"$x":1,"":1}}}}
/v1/ks/zz {"insertOne":{"document":{"":1,"_id":null}}}
/v1/ks/zz {"insertOne":{"document":{"":1}}}
/v1/ks/zz {"insertOne":{"document":{"_id":1}}}
/v1/ks/c {"insertOne":{"document":{"_id":1}}}
/v1/ks/c {"insertOne":{"document":{"_id":1.0,"n":1}}}
=> 0
{"errors":[{"message":"Body is not JSON at byte 26","errorCode":"INVALID_JSON"}]}
{"errors":[{"message":"No command matched","errorCode":"NO_COMMAND_MATCHED"}]}
{"errors":[{"message":"No command matched","errorCode":"NO_COMMAND_MATCHED"}]}
{"errors":[{"message":"Keyspace ot does not exist","errorCode":"KEYSPACE_NOT_EXIST"}]}
{"errors":[{"message":"Collection name is invalid: 9c","errorCode":"INVALID_COLLECTION_NAME"}]}
{"errors":[{"message":"Command field invalid: insertOne","errorCode":"COMMAND_FIELD_INVALID"}]}
{"errors":[{"message":"Command field invalid: insertOne","errorCode":"COMMAND_FIELD_INVALID"}]}
{"errors":[{"message":"Command field invalid: documents","errorCode":"COMMAND_FIELD_INVALID"}]}
{"errors":[{"message":"Command field invalid: options","errorCode":"COMMAND_FIELD_INVALID"}]}
{"errors":[{"message":"Command field invalid: document","errorCode":"COMMAND_FIELD_INVALID"}]}
{"errors":[{"message":"Command field invalid: document","errorCode":"COMMAND_FIELD_INVALID"}]}
{"errors":[{"message":"Command field invalid: document","errorCode":"COMMAND_FIELD_INVALID"}]}
{"errors":[{"message":"Field _id is of the wrong kind","errorCode":"SHRED_BAD_DOCID_TYPE"}]}
{"errors":[{"message":"Field _id is of the wrong kind","errorCode":"SHRED_BAD_DOCID_TYPE"}]}
{"errors":[{"message":"Field _id is an empty text","errorCode":"SHRED_BAD_DOCID_EMPTY_STRING"}]}
{"errors":[{"message":"Member name is not allowed: a b","errorCode":"SHRED_DOC_KEY_NAME_VIOLATION"}]}
{"errors":[{"message":"Member name is not allowed: $x","errorCode":"SHRED_DOC_KEY_NAME_VIOLATION"}]}
{"errors":[{"message":"Document limit 3 is 1, found 0","errorCode":"SHRED_DOC_LIMIT_VIOLATION"}]}
{"errors":[{"message":"Document limit 3 is 1, found 0","errorCode":"SHRED_DOC_LIMIT_VIOLATION"}]}
{"errors":[{"message":"Collection zz does not exist","errorCode":"COLLECTION_NOT_EXIST"}]}
{"status":{"insertedIds":[1]}}
{"errors":[{"message":"Document 1 already exists at version 1","errorCode":"DOCUMENT_ALREADY_EXISTS"}]}
---
run --collection=c
/v1/ot/9c {"insertMany":[{"_id":[1]}]
/v1/ot {"insertMany":[{"_id":[1]}]}
/v1/ot/9c {"insertMany":[{"_id":[1]}],"x":1}
/v1/ot/9c {"insertMany":[{"_id":[1]}]}
/v1/ks/9c {"insertMany":[{"_id":[1]}]}
/v1/ks/zz {"insertMany":[{"_id":[1]}]}
/v1/ks/zz {"insertMany":{"document":{},"documents":[{"_id":[1]}]}}
/v1/ks/zz {"insertMany":{"documents":[{"_id":[1]}],"options":[]}}
/v1/ks/zz {"insertMany":{"options":{"x":1,"ordered":1},"documents":[]}}
/v1/ks/zz {"insertMany":{"options":{"ordered":1},"documents":[]}}
/v1/ks/zz {"insertMany":{"documents":[],"options":{"ordered":1}}}
/v1/ks/zz {"insertMany":{"documents":{"_id":[1]},"options":{"ordered":true}}}
/v1/ks/zz {"insertMany":{"documents":[{"_id":[1]},[]]}}
/v1/ks/zz {"insertMany":{"documents":[{"_id":[1]},{"$date":1}]}}
/v1/ks/zz {"insertMany":{"documents":[{},{},{},{},{},{},{},{},{},{},{},{},{},{},{},{},{},{},{},{},{},{},{},{},{},{},{},{},{},{},{},{},{},{},{},{},{},{},{},{},{},{},{},{},{},{},{},{},{},{},{},{},{},{},{},{},{},{},{},{},{},{},{},{},{},{},{},{},{},{},{},{},{},{},{},{},{},{},{},{},{},{},{},{},{},{},{},{},{},{},{},{},{},{},{},{},{},{},{},{},7]}}
/v1/ks/zz {"insertMany":{"options":{}}}
/v1/ks/zz {"insertMany":{"documents":[{"_id":[1]},{},{},{},{},{},{},{},{},{},{},{},{},{},{},{},{},{},{},{},{},{},{},{},{},{},{},{},{},{},{},{},{},{},{},{},{},{},{},{},{},{},{},{},{},{},{},{},{},{},{},{},{},{},{},{},{},{},{},{},{},{},{},{},{},{},{},{},{},{},{},{},{},{},{},{},{},{},{},{},{},{},{},{},{},{},{},{},{},{},{},{},{},{},{},{},{},{},{},{},{}]}}
/v1/ks/zz {"insertMany":{"documents":[{"_id":1},{"a b":1,"_id":[1]},{"_id":""}]}}
/v1/ks/zz {"insertMany":{"documents":[{"_id":1},{"":1,"c d":1,"_id":""},{"_id":[1]}]}}
/v1/ks/zz {"insertMany":{"documents":[{"_id":1},{"":1,"c d":1},{"_id":[1]}]}}
/v1/ks/zz {"insertMany":{"documents":[{"":1},{"_id":[1]}]}}
/v1/ks/zz {"insertMany":{"documents":[{"_id":1},{"_id":1}]}}
/v1/ks/c {"insertMany":{"documents":[{"_id":1},{"_id":1}]}}
/v1/ks/c {"insertMany":{"documents":[{"_id":1},{"_id":1}]}}
/v1/ks/c {"insertMany":{"documents":[{"_id":1},{"_id":1}],"options":{"ordered":true}}}
=> 0
{"errors":[{"message":"Body is not JSON at byte 27","errorCode":"INVALID_JSON"}]}
{"errors":[{"message":"No command matched","errorCode":"NO_COMMAND_MATCHED"}]}
{"errors":[{"message":"No command matched","errorCode":"NO_COMMAND_MATCHED"}]}
{"errors":[{"message":"Keyspace ot does not exist","errorCode":"KEYSPACE_NOT_EXIST"}]}
{"errors":[{"message":"Collection name is invalid: 9c","errorCode":"INVALID_COLLECTION_NAME"}]}
{"errors":[{"message":"Command field invalid: insertMany","errorCode":"COMMAND_FIELD_INVALID"}]}
{"errors":[{"message":"Command field invalid: document","errorCode":"COMMAND_FIELD_INVALID"}]}
{"errors":[{"message":"Command field invalid: options","errorCode":"COMMAND_FIELD_INVALID"}]}
{"errors":[{"message":"Command field invalid: options.x","errorCode":"COMMAND_FIELD_INVALID"}]}
{"errors":[{"message":"Command field invalid: options.ordered","errorCode":"COMMAND_FIELD_INVALID"}]}
{"errors":[{"message":"Command field invalid: documents","errorCode":"COMMAND_FIELD_INVALID"}]}
{"errors":[{"message":"Command field invalid: documents","errorCode":"COMMAND_FIELD_INVALID"}]}
{"errors":[{"message":"Command field invalid: documents","errorCode":"COMMAND_FIELD_INVALID"}]}
{"errors":[{"message":"Command field invalid: documents","errorCode":"COMMAND_FIELD_INVALID"}]}
{"errors":[{"message":"Command field invalid: documents","errorCode":"COMMAND_FIELD_INVALID"}]}
{"errors":[{"message":"Command field invalid: documents","errorCode":"COMMAND_FIELD_INVALID"}]}
{"errors":[{"message":"Command limit documents is 100, found 101","errorCode":"COMMAND_LIMIT_VIOLATION"}]}
{"errors":[{"message":"Field _id is of the wrong kind","errorCode":"SHRED_BAD_DOCID_TYPE"}]}
{"errors":[{"message":"Field _id is an empty text","errorCode":"SHRED_BAD_DOCID_EMPTY_STRING"}]}
{"errors":[{"message":"Member name is not allowed: c d","errorCode":"SHRED_DOC_KEY_NAME_VIOLATION"}]}
{"errors":[{"message":"Document limit 3 is 1, found 0","errorCode":"SHRED_DOC_LIMIT_VIOLATION"}]}
{"errors":[{"message":"Collection zz does not exist","errorCode":"COLLECTION_NOT_EXIST"}]}
{"status":{"insertedIds":[1]},"errors":[{"message":"Document 1 already exists at version 1","errorCode":"DOCUMENT_ALREADY_EXISTS"}]}
{"errors":[{"message":"Document 1 already exists at version 1","errorCode":"DOCUMENT_ALREADY_EXISTS"},{"message":"Document 1 already exists at version 1","errorCode":"DOCUMENT_ALREADY_EXISTS"}]}
{"errors":[{"message":"Document 1 already exists at version 1","errorCode":"DOCUMENT_ALREADY_EXISTS"}]}
---
run --collection=c
/v1/ot/9c {"findOne":[{"filter":1}]
/v1/ot {"findOne":[{"filter":1}]}
/v1/ot/9c {"findOne":[{"filter":1}],"x":1}
/v1/ot/9c {"findOne":[{"filter":1}]}
/v1/ks/9c {"findOne":[{"filter":1}]}
/v1/ks/zz {"findOne":[{"filter":1}]}
/v1/ks/zz {"findOne":{"sort":1,"filter":1,"projection":1,"options":{}}}
/v1/ks/zz {"findOne":{"sort":{"a":1,"b":1,"c":1,"d":1,"e":1,"f":1,"g":1,"h":1,"i":1},"options":{},"filter":1,"projection":1}}
/v1/ks/zz {"findOne":{"sort":{"a":1,"b":1,"c":1,"d":1,"e":1,"f":1,"g":1,"h":1,"i":1},"filter":[],"projection":1}}
/v1/ks/zz {"findOne":{"sort":{"a":1,"b":1,"c":1,"d":1,"e":1,"f":1,"g":1,"h":1,"i":1},"filter":{"$nor":[]},"projection":1}}
/v1/ks/zz {"findOne":{"sort":{"a":1,"b":1,"c":1,"d":1,"e":1,"f":1,"g":1,"h":1,"i":1},"filter":{"$nor":[]},"projection":{"a":2}}}
/v1/ks/zz {"findOne":{"sort":{"a":2},"filter":{"$nor":[]},"projection":{"a":2}}}
/v1/ks/zz {"findOne":{"sort":{"a":2},"filter":{"a":{"$gt":null}},"projection":{"a":2}}}
/v1/ks/zz {"findOne":{"sort":{"a":2},"projection":{"a":2}}}
/v1/ks/zz {"findOne":{"sort":{"a":2},"projection":{}}}
/v1/ks/zz {"findOne":{}}
/v1/ks/c {"findOne":{}}
=> 0
{"errors":[{"message":"Body is not JSON at byte 25","errorCode":"INVALID_JSON"}]}
{"errors":[{"message":"No command matched","errorCode":"NO_COMMAND_MATCHED"}]}
{"errors":[{"message":"No command matched","errorCode":"NO_COMMAND_MATCHED"}]}
{"errors":[{"message":"Keyspace ot does not exist","errorCode":"KEYSPACE_NOT_EXIST"}]}
{"errors":[{"message":"Collection name is invalid: 9c","errorCode":"INVALID_COLLECTION_NAME"}]}
{"errors":[{"message":"Command field invalid: findOne","errorCode":"COMMAND_FIELD_INVALID"}]}
{"errors":[{"message":"Command field invalid: sort","errorCode":"COMMAND_FIELD_INVALID"}]}
{"errors":[{"message":"Command field invalid: options","errorCode":"COMMAND_FIELD_INVALID"}]}
{"errors":[{"message":"Command field invalid: filter","errorCode":"COMMAND_FIELD_INVALID"}]}
{"errors":[{"message":"Command field invalid: projection","errorCode":"COMMAND_FIELD_INVALID"}]}
{"errors":[{"message":"Command limit sort is 8, found 9","errorCode":"COMMAND_LIMIT_VIOLATION"}]}
{"errors":[{"message":"Filter operator $nor is not supported","errorCode":"UNSUPPORTED_FILTER_OPERATION"}]}
{"errors":[{"message":"Filter is invalid at a","errorCode":"INVALID_FILTER_EXPRESSION"}]}
{"errors":[{"message":"Projection is invalid at a","errorCode":"UNSUPPORTED_PROJECTION_PARAM"}]}
{"errors":[{"message":"Sort is invalid at a","errorCode":"INVALID_SORT_CLAUSE"}]}
{"errors":[{"message":"Collection zz does not exist","errorCode":"COLLECTION_NOT_EXIST"}]}
{"data":{"document":null}}
---
run --collection=c
/v1/ot/9c {"find":"x"
/v1/ot {"find":"x"}
/v1/ot/9c {"find":"x","x":1}
/v1/ot/9c {"find":"x"}
/v1/ks/9c {"find":"x"}
/v1/ks/zz {"find":"x"}
/v1/ks/zz {"find":{"speed":1,"filter":1,"options":{"limit":-1}}}
/v1/ks/zz {"find":{"options":{"pageState":1,"limit":-1},"filter":1}}
/v1/ks/zz {"find":{"filter":1,"options":{"limit":-1}}}
/v1/ks/zz {"find":{"options":{"limit":-1,"skip":2147483648}}}
/v1/ks/zz {"find":{"options":{"skip":2147483648}}}
/v1/ks/zz {"find":{"options":{"returnDocument":"after"}}}
/v1/ks/zz {"find":{"options":{"skip":481,"pageState":"AA=="},"sort":{},"filter":{"$nor":[]}}}
/v1/ks/zz {"find":{"options":{"skip":481,"pageState":"AA=="},"sort":{"a":1,"b":1,"c":1,"d":1,"e":1,"f":1,"g":1,"h":1,"i":1},"filter":{"$nor":[]}}}
/v1/ks/zz {"find":{"options":{"skip":481,"pageState":null},"sort":{"a":1,"b":1,"c":1,"d":1,"e":1,"f":1,"g":1,"h":1,"i":1},"filter":{"$nor":[]}}}
/v1/ks/zz {"find":{"options":{"skip":480},"sort":{"a":1,"b":1,"c":1,"d":1,"e":1,"f":1,"g":1,"h":1,"i":1},"filter":{"$nor":[]}}}
/v1/ks/zz {"find":{"options":{"skip":480},"sort":{"a":2},"projection":{"a":2},"filter":{"a":{"$in":[1,1,1,1,1,1,1,1,1,1,1,1,1,1,1,1,1,1,1,1,1,1,1,1,1,1,1,1,1,1,1,1,1,1,1,1,1,1,1,1,1,1,1,1,1,1,1,1,1,1,1,1,1,1,1,1,1,1,1,1,1,1,1,1,1,1,1,1,1,1,1,1,1,1,1,1,1,1,1,1,1,1,1,1,1,1,1,1,1,1,1,1,1,1,1,1,1,1,1,1,1]}}}}
/v1/ks/zz {"find":{"options":{"skip":480},"sort":{"a":2},"projection":{"a":2},"filter":{"a":{"$and":[]}}}}
/v1/ks/zz {"find":{"options":{"skip":480},"sort":{"a":2},"projection":{"a":2}}}
/v1/ks/zz {"find":{"options":{"skip":480},"sort":{"a":2}}}
/v1/ks/zz {"find":{"options":{"pageState":"AA=="},"sort":{}}}
/v1/ks/zz {"find":{}}
/v1/ks/c {"find":{}}
=> 0
{"errors":[{"message":"Body is not JSON at byte 11","errorCode":"INVALID_JSON"}]}
{"errors":[{"message":"No command matched","errorCode":"NO_COMMAND_MATCHED"}]}
{"errors":[{"message":"No command matched","errorCode":"NO_COMMAND_MATCHED"}]}
{"errors":[{"message":"Keyspace ot does not exist","errorCode":"KEYSPACE_NOT_EXIST"}]}
{"errors":[{"message":"Collection name is invalid: 9c","errorCode":"INVALID_COLLECTION_NAME"}]}
{"errors":[{"message":"Command field invalid: find","errorCode":"COMMAND_FIELD_INVALID"}]}
{"errors":[{"message":"Command field invalid: speed","errorCode":"COMMAND_FIELD_INVALID"}]}
{"errors":[{"message":"Command field invalid: options.pageState","errorCode":"COMMAND_FIELD_INVALID"}]}
{"errors":[{"message":"Command field invalid: filter","errorCode":"COMMAND_FIELD_INVALID"}]}
{"errors":[{"message":"Command field invalid: options.limit","errorCode":"COMMAND_FIELD_INVALID"}]}
{"errors":[{"message":"Command field invalid: options.skip","errorCode":"COMMAND_FIELD_INVALID"}]}
{"errors":[{"message":"Command field invalid: options.returnDocument","errorCode":"COMMAND_FIELD_INVALID"}]}
{"errors":[{"message":"Command field invalid: options.skip","errorCode":"COMMAND_FIELD_INVALID"}]}
{"errors":[{"message":"Command field invalid: options.pageState","errorCode":"COMMAND_FIELD_INVALID"}]}
{"errors":[{"message":"Command limit skip is 480, found 481","errorCode":"COMMAND_LIMIT_VIOLATION"}]}
{"errors":[{"message":"Command limit sort is 8, found 9","errorCode":"COMMAND_LIMIT_VIOLATION"}]}
{"errors":[{"message":"Filter has 101 operands, at most 100","errorCode":"INVALID_FILTER_EXPRESSION"}]}
{"errors":[{"message":"Filter operator $and is not supported","errorCode":"UNSUPPORTED_FILTER_OPERATION"}]}
{"errors":[{"message":"Projection is invalid at a","errorCode":"UNSUPPORTED_PROJECTION_PARAM"}]}
{"errors":[{"message":"Sort is invalid at a","errorCode":"INVALID_SORT_CLAUSE"}]}
{"errors":[{"message":"Page state is invalid","errorCode":"INVALID_PAGE_STATE"}]}
{"errors":[{"message":"Collection zz does not exist","errorCode":"COLLECTION_NOT_EXIST"}]}
{"data":{"documents":[],"nextPageState":null}}
---
run --collection=c
/v1/ot/9c {"countDocuments":null
/v1/ot {"countDocuments":null}
/v1/ot/9c {"countDocuments":null,"x":1}
/v1/ot/9c {"countDocuments":null}
/v1/ks/9c {"countDocuments":null}
/v1/ks/zz {"countDocuments":null}
/v1/ks/zz {"countDocuments":{"filter":{"$nor":[]},"sort":{}}}
/v1/ks/zz {"countDocuments":{"options":{},"filter":1}}
/v1/ks/zz {"countDocuments":{"filter":1}}
/v1/ks/zz {"countDocuments":{"filter":{"a":1,"$not":[]}}}
/v1/ks/zz {"countDocuments":{"filter":{"a":1}}}
/v1/ks/c {"countDocuments":{"filter":{"a":1}}}
=> 0
{"errors":[{"message":"Body is not JSON at byte 22","errorCode":"INVALID_JSON"}]}
{"errors":[{"message":"No command matched","errorCode":"NO_COMMAND_MATCHED"}]}
{"errors":[{"message":"No command matched","errorCode":"NO_COMMAND_MATCHED"}]}
{"errors":[{"message":"Keyspace ot does not exist","errorCode":"KEYSPACE_NOT_EXIST"}]}
{"errors":[{"message":"Collection name is invalid: 9c","errorCode":"INVALID_COLLECTION_NAME"}]}
{"errors":[{"message":"Command field invalid: countDocuments","errorCode":"COMMAND_FIELD_INVALID"}]}
{"errors":[{"message":"Command field invalid: sort","errorCode":"COMMAND_FIELD_INVALID"}]}
{"errors":[{"message":"Command field invalid: options","errorCode":"COMMAND_FIELD_INVALID"}]}
{"errors":[{"message":"Command field invalid: filter","errorCode":"COMMAND_FIELD_INVALID"}]}
{"errors":[{"message":"Filter is invalid at $not","errorCode":"INVALID_FILTER_EXPRESSION"}]}
{"errors":[{"message":"Collection zz does not exist","errorCode":"COLLECTION_NOT_EXIST"}]}
{"status":{"count":0}}
---
run --collection=c
/v1/ot/9c {"updateOne":true
/v1/ot {"updateOne":true}
/v1/ot/9c {"updateOne":true,"x":1}
/v1/ot/9c {"updateOne":true}
/v1/ks/9c {"updateOne":true}
/v1/ks/zz {"updateOne":true}
/v1/ks/zz {"updateOne":{"projection":{},"sort":{"a":1,"b":1,"c":1,"d":1,"e":1,"f":1,"g":1,"h":1,"i":1},"options":{"upsert":1}}}
/v1/ks/zz {"updateOne":{"sort":{"a":1,"b":1,"c":1,"d":1,"e":1,"f":1,"g":1,"h":1,"i":1},"options":{"upsert":1},"filter":[]}}
/v1/ks/zz {"updateOne":{"sort":{"a":1,"b":1,"c":1,"d":1,"e":1,"f":1,"g":1,"h":1,"i":1},"options":{"upsert":true,"pageState":null},"filter":[]}}
/v1/ks/zz {"updateOne":{"sort":{"a":1,"b":1,"c":1,"d":1,"e":1,"f":1,"g":1,"h":1,"i":1},"options":{"upsert":true},"filter":[]}}
/v1/ks/zz {"updateOne":{"sort":{"a":1,"b":1,"c":1,"d":1,"e":1,"f":1,"g":1,"h":1,"i":1},"options":{"upsert":true},"filter":{"$nor":[]}}}
/v1/ks/zz {"updateOne":{"sort":{"a":1,"b":1,"c":1,"d":1,"e":1,"f":1,"g":1,"h":1,"i":1},"options":{"upsert":true},"filter":{"$nor":[]},"update":{"a":1}}}
/v1/ks/zz {"updateOne":{"sort":{"a":2},"filter":{"$nor":[]},"update":{"a":1}}}
/v1/ks/zz {"updateOne":{"sort":{"a":2},"filter":{"a..b":1},"update":{"a":1}}}
/v1/ks/zz {"updateOne":{"sort":{"a":2},"update":{"$set":[],"$near":{},"$inc":{"n":"x"}}}}
/v1/ks/zz {"updateOne":{"sort":{"a":2},"update":{"$inc":{"_id":"x"},"$set":{"a.b":1,"a":2},"$push":[]}}}
/v1/ks/zz {"updateOne":{"sort":{"a":2},"update":{"$inc":{"_id":1},"$set":{"a.b":1,"a":2}}}}
/v1/ks/zz {"updateOne":{"sort":{"a":2},"update":{"$inc":{"_id":1},"$set":{"a":2}}}}
/v1/ks/zz {"updateOne":{"sort":{"a":2},"update":{"$inc":{"n":1},"$set":{"a":2}}}}
/v1/ks/zz {"updateOne":{"sort":{"a":-1},"update":{"$inc":{"n":1},"$set":{"a":2}},"options":{"upsert":true}}}
/v1/ks/c {"updateOne":{"sort":{"a":-1},"update":{"$inc":{"n":1},"$set":{"a":2}}}}
=> 0
{"errors":[{"message":"Body is not JSON at byte 17","errorCode":"INVALID_JSON"}]}
{"errors":[{"message":"No command matched","errorCode":"NO_COMMAND_MATCHED"}]}
{"errors":[{"message":"No command matched","errorCode":"NO_COMMAND_MATCHED"}]}
{"errors":[{"message":"Keyspace ot does not exist","errorCode":"KEYSPACE_NOT_EXIST"}]}
{"errors":[{"message":"Collection name is invalid: 9c","errorCode":"INVALID_COLLECTION_NAME"}]}
{"errors":[{"message":"Command field invalid: updateOne","errorCode":"COMMAND_FIELD_INVALID"}]}
{"errors":[{"message":"Command field invalid: projection","errorCode":"COMMAND_FIELD_INVALID"}]}
{"errors":[{"message":"Command field invalid: options.upsert","errorCode":"COMMAND_FIELD_INVALID"}]}
{"errors":[{"message":"Command field invalid: options.pageState","errorCode":"COMMAND_FIELD_INVALID"}]}
{"errors":[{"message":"Command field invalid: filter","errorCode":"COMMAND_FIELD_INVALID"}]}
{"errors":[{"message":"Command field invalid: update","errorCode":"COMMAND_FIELD_INVALID"}]}
{"errors":[{"message":"Command limit sort is 8, found 9","errorCode":"COMMAND_LIMIT_VIOLATION"}]}
{"errors":[{"message":"Filter operator $nor is not supported","errorCode":"UNSUPPORTED_FILTER_OPERATION"}]}
{"errors":[{"message":"Filter is invalid at a..b","errorCode":"INVALID_FILTER_EXPRESSION"}]}
{"errors":[{"message":"Update operator $near is not supported","errorCode":"UNSUPPORTED_UPDATE_OPERATION"}]}
{"errors":[{"message":"Update operand is invalid for $inc at _id","errorCode":"UNSUPPORTED_UPDATE_OPERATION_PARAM"}]}
{"errors":[{"message":"Update paths conflict: a.b and a","errorCode":"UNSUPPORTED_UPDATE_OPERATION_PARAM"}]}
{"errors":[{"message":"Field _id is not changeable","errorCode":"UNSUPPORTED_UPDATE_FOR_DOC_ID"}]}
{"errors":[{"message":"Sort is invalid at a","errorCode":"INVALID_SORT_CLAUSE"}]}
{"errors":[{"message":"Collection zz does not exist","errorCode":"COLLECTION_NOT_EXIST"}]}
{"status":{"matchedCount":0,"modifiedCount":0}}
---
run --collection=c
/v1/ot/9c {"updateMany":1e3
/v1/ot {"updateMany":1e3}
/v1/ot/9c {"updateMany":1e3,"x":1}
/v1/ot/9c {"updateMany":1e3}
/v1/ks/9c {"updateMany":1e3}
/v1/ks/zz {"updateMany":1e3}
/v1/ks/zz {"updateMany":{"sort":{},"options":{"upsert":null}}}
/v1/ks/zz {"updateMany":{"options":{"pageState":1,"upsert":null},"filter":1}}
/v1/ks/zz {"updateMany":{"options":{"upsert":null},"filter":1}}
/v1/ks/zz {"updateMany":{"filter":1,"options":{"pageState":"AA=="}}}
/v1/ks/zz {"updateMany":{"filter":{"$nor":[]},"options":{"pageState":"AA=="}}}
/v1/ks/zz {"updateMany":{"update":{"a":1},"filter":{"$nor":[]},"options":{"pageState":"AA=="}}}
/v1/ks/zz {"updateMany":{"update":{"a":1},"options":{"pageState":"AA=="}}}
/v1/ks/zz {"updateMany":{"update":{"$pop":{"a":2,"_id":1}},"options":{"pageState":"AA=="}}}
/v1/ks/zz {"updateMany":{"update":{"$rename":{"a":"a"},"$pop":{"_id":1}},"options":{"pageState":"AA=="}}}
/v1/ks/zz {"updateMany":{"update":{"$rename":{"a":"_id.x"}},"options":{"pageState":"AA=="}}}
/v1/ks/zz {"updateMany":{"update":{"$rename":{"a":"b"}},"options":{"pageState":"AA=="}}}
/v1/ks/zz {"updateMany":{"update":{"$rename":{"a":"b"}},"options":{"pageState":null,"upsert":true}}}
/v1/ks/c {"updateMany":{"update":{"$rename":{"a":"b"}},"options":{"pageState":"AQAAAAAAAAAUAWQxOQ==","upsert":true}}}
=> 0
{"errors":[{"message":"Body is not JSON at byte 17","errorCode":"INVALID_JSON"}]}
{"errors":[{"message":"No command matched","errorCode":"NO_COMMAND_MATCHED"}]}
{"errors":[{"message":"No command matched","errorCode":"NO_COMMAND_MATCHED"}]}
{"errors":[{"message":"Keyspace ot does not exist","errorCode":"KEYSPACE_NOT_EXIST"}]}
{"errors":[{"message":"Collection name is invalid: 9c","errorCode":"INVALID_COLLECTION_NAME"}]}
{"errors":[{"message":"Command field invalid: updateMany","errorCode":"COMMAND_FIELD_INVALID"}]}
{"errors":[{"message":"Command field invalid: sort","errorCode":"COMMAND_FIELD_INVALID"}]}
{"errors":[{"message":"Command field invalid: options.pageState","errorCode":"COMMAND_FIELD_INVALID"}]}
{"errors":[{"message":"Command field invalid: options.upsert","errorCode":"COMMAND_FIELD_INVALID"}]}
{"errors":[{"message":"Command field invalid: filter","errorCode":"COMMAND_FIELD_INVALID"}]}
{"errors":[{"message":"Command field invalid: update","errorCode":"COMMAND_FIELD_INVALID"}]}
{"errors":[{"message":"Filter operator $nor is not supported","errorCode":"UNSUPPORTED_FILTER_OPERATION"}]}
{"errors":[{"message":"Update operator a is not supported","errorCode":"UNSUPPORTED_UPDATE_OPERATION"}]}
{"errors":[{"message":"Update operand is invalid for $pop at a","errorCode":"UNSUPPORTED_UPDATE_OPERATION_PARAM"}]}
{"errors":[{"message":"Update paths conflict: a and a","errorCode":"UNSUPPORTED_UPDATE_OPERATION_PARAM"}]}
{"errors":[{"message":"Field _id is not changeable","errorCode":"UNSUPPORTED_UPDATE_FOR_DOC_ID"}]}
{"errors":[{"message":"Page state is invalid","errorCode":"INVALID_PAGE_STATE"}]}
{"errors":[{"message":"Collection zz does not exist","errorCode":"COLLECTION_NOT_EXIST"}]}
{"status":{"matchedCount":0,"modifiedCount":0}}
---
run --collection=c
/v1/ot/9c {"deleteOne":[]
/v1/ot {"deleteOne":[]}
/v1/ot/9c {"deleteOne":[],"x":1}
/v1/ot/9c {"deleteOne":[]}
/v1/ks/9c {"deleteOne":[]}
/v1/ks/zz {"deleteOne":[]}
/v1/ks/zz {"deleteOne":{"projection":{},"sort":1}}
/v1/ks/zz {"deleteOne":{"options":{},"sort":1}}
/v1/ks/zz {"deleteOne":{"sort":1,"filter":1}}
/v1/ks/zz {"deleteOne":{"sort":{"a":1,"b":1,"c":1,"d":1,"e":1,"f":1,"g":1,"h":1,"i":1},"filter":1}}
/v1/ks/zz {"deleteOne":{"sort":{"a":1,"b":1,"c":1,"d":1,"e":1,"f":1,"g":1,"h":1,"i":1},"filter":{"$nor":[]}}}
/v1/ks/zz {"deleteOne":{"sort":{"a":2},"filter":{"$nor":[]}}}
/v1/ks/zz {"deleteOne":{"sort":{"a":2},"filter":{"b":{"$exists":1}}}}
/v1/ks/zz {"deleteOne":{"sort":{"a":2}}}
/v1/ks/zz {"deleteOne":{"sort":{"a":1}}}
/v1/ks/c {"deleteOne":{"sort":{"a":1}}}
=> 0
{"errors":[{"message":"Body is not JSON at byte 15","errorCode":"INVALID_JSON"}]}
{"errors":[{"message":"No command matched","errorCode":"NO_COMMAND_MATCHED"}]}
{"errors":[{"message":"No command matched","errorCode":"NO_COMMAND_MATCHED"}]}
{"errors":[{"message":"Keyspace ot does not exist","errorCode":"KEYSPACE_NOT_EXIST"}]}
{"errors":[{"message":"Collection name is invalid: 9c","errorCode":"INVALID_COLLECTION_NAME"}]}
{"errors":[{"message":"Command field invalid: deleteOne","errorCode":"COMMAND_FIELD_INVALID"}]}
{"errors":[{"message":"Command field invalid: projection","errorCode":"COMMAND_FIELD_INVALID"}]}
{"errors":[{"message":"Command field invalid: options","errorCode":"COMMAND_FIELD_INVALID"}]}
{"errors":[{"message":"Command field invalid: sort","errorCode":"COMMAND_FIELD_INVALID"}]}
{"errors":[{"message":"Command field invalid: filter","errorCode":"COMMAND_FIELD_INVALID"}]}
{"errors":[{"message":"Command limit sort is 8, found 9","errorCode":"COMMAND_LIMIT_VIOLATION"}]}
{"errors":[{"message":"Filter operator $nor is not supported","errorCode":"UNSUPPORTED_FILTER_OPERATION"}]}
{"errors":[{"message":"Filter is invalid at b","errorCode":"INVALID_FILTER_EXPRESSION"}]}
{"errors":[{"message":"Sort is invalid at a","errorCode":"INVALID_SORT_CLAUSE"}]}
{"errors":[{"message":"Collection zz does not exist","errorCode":"COLLECTION_NOT_EXIST"}]}
{"status":{"deletedCount":0}}
---
run --collection=c
/v1/ot/9c {"deleteMany":[]
/v1/ot {"deleteMany":[]}
/v1/ot/9c {"deleteMany":[],"x":1}
/v1/ot/9c {"deleteMany":[]}
/v1/ks/9c {"deleteMany":[]}
/v1/ks/zz {"deleteMany":[]}
/v1/ks/zz {"deleteMany":{"sort":{},"filter":1}}
/v1/ks/zz {"deleteMany":{"options":{},"filter":1}}
/v1/ks/zz {"deleteMany":{"filter":{"$date":1}}}
/v1/ks/zz {"deleteMany":{"filter":{"a":{"$regex":"x"}}}}
/v1/ks/zz {"deleteMany":{"filter":{"a":{"$eq":1,"b":2}}}}
/v1/ks/zz {"deleteMany":{}}
/v1/ks/c {"deleteMany":{}}
=> 0
{"errors":[{"message":"Body is not JSON at byte 16","errorCode":"INVALID_JSON"}]}
{"errors":[{"message":"No command matched","errorCode":"NO_COMMAND_MATCHED"}]}
{"errors":[{"message":"No command matched","errorCode":"NO_COMMAND_MATCHED"}]}
{"errors":[{"message":"Keyspace ot does not exist","errorCode":"KEYSPACE_NOT_EXIST"}]}
{"errors":[{"message":"Collection name is invalid: 9c","errorCode":"INVALID_COLLECTION_NAME"}]}
{"errors":[{"message":"Command field invalid: deleteMany","errorCode":"COMMAND_FIELD_INVALID"}]}
{"errors":[{"message":"Command field invalid: sort","errorCode":"COMMAND_FIELD_INVALID"}]}
{"errors":[{"message":"Command field invalid: options","errorCode":"COMMAND_FIELD_INVALID"}]}
{"errors":[{"message":"Command field invalid: filter","errorCode":"COMMAND_FIELD_INVALID"}]}
{"errors":[{"message":"Filter operator $regex is not supported","errorCode":"UNSUPPORTED_FILTER_OPERATION"}]}
{"errors":[{"message":"Filter is invalid at a","errorCode":"INVALID_FILTER_EXPRESSION"}]}
{"errors":[{"message":"Collection zz does not exist","errorCode":"COLLECTION_NOT_EXIST"}]}
{"status":{"deletedCount":0}}
---
run --collection=c
/v1/ot/9c {"findOneAndUpdate":[]
/v1/ot {"findOneAndUpdate":[]}
/v1/ot/9c {"findOneAndUpdate":[],"x":1}
/v1/ot/9c {"findOneAndUpdate":[]}
/v1/ks/9c {"findOneAndUpdate":[]}
/v1/ks/zz {"findOneAndUpdate":[]}
/v1/ks/zz {"findOneAndUpdate":{"replacement":{},"sort":{"a":1,"b":1,"c":1,"d":1,"e":1,"f":1,"g":1,"h":1,"i":1},"options":{"upsert":1}}}
/v1/ks/zz {"findOneAndUpdate":{"options":{"returnDocument":"new","upsert":1},"projection":1}}
/v1/ks/zz {"findOneAndUpdate":{"options":{"upsert":1},"projection":1}}
/v1/ks/zz {"findOneAndUpdate":{"projection":1,"options":{"pageState":null}}}
/v1/ks/zz {"findOneAndUpdate":{"options":{"pageState":null},"update":1}}
/v1/ks/zz {"findOneAndUpdate":{"update":1,"sort":{"a":1,"b":1,"c":1,"d":1,"e":1,"f":1,"g":1,"h":1,"i":1}}}
/v1/ks/zz {"findOneAndUpdate":{"sort":{"a":1,"b":1,"c":1,"d":1,"e":1,"f":1,"g":1,"h":1,"i":1},"filter":{"$nor":[]},"projection":{"a":2}}}
/v1/ks/zz {"findOneAndUpdate":{"sort":{"a":1,"b":1,"c":1,"d":1,"e":1,"f":1,"g":1,"h":1,"i":1},"filter":{"$nor":[]},"projection":{"a":2},"update":{"a":1}}}
/v1/ks/zz {"findOneAndUpdate":{"sort":{"a":2},"filter":{"$nor":[]},"projection":{"a":2},"update":{"a":1}}}
/v1/ks/zz {"findOneAndUpdate":{"sort":{"a":2},"filter":{"$or":[{},1]},"projection":{"a":2},"update":{"a":1}}}
/v1/ks/zz {"findOneAndUpdate":{"sort":{"a":2},"projection":{"a":2},"update":{"a":1}}}
/v1/ks/zz {"findOneAndUpdate":{"sort":{"a":2},"projection":{"a":2},"update":{"$set":{"a":{"b c":1}}}}}
/v1/ks/zz {"findOneAndUpdate":{"sort":{"a":2},"projection":{"a":2},"update":{"$setOnInsert":{"a":1},"$set":{"a":1,"_id":1}}}}
/v1/ks/zz {"findOneAndUpdate":{"sort":{"a":2},"projection":{"a":2},"update":{"$setOnInsert":{"_id":1}}}}
/v1/ks/zz {"findOneAndUpdate":{"sort":{"a":2},"projection":{"a":2},"update":{}}}
/v1/ks/zz {"findOneAndUpdate":{"sort":{"a":2},"projection":{"a":1},"update":{}}}
/v1/ks/zz {"findOneAndUpdate":{"sort":{"a":1},"projection":{"a":1},"update":{},"options":{"upsert":true,"returnDocument":"after"}}}
/v1/ks/c {"findOneAndUpdate":{"sort":{"a":1},"projection":{"a":1},"update":{},"options":{"returnDocument":"after"}}}
=> 0
{"errors":[{"message":"Body is not JSON at byte 22","errorCode":"INVALID_JSON"}]}
{"errors":[{"message":"No command matched","errorCode":"NO_COMMAND_MATCHED"}]}
{"errors":[{"message":"No command matched","errorCode":"NO_COMMAND_MATCHED"}]}
{"errors":[{"message":"Keyspace ot does not exist","errorCode":"KEYSPACE_NOT_EXIST"}]}
{"errors":[{"message":"Collection name is invalid: 9c","errorCode":"INVALID_COLLECTION_NAME"}]}
{"errors":[{"message":"Command field invalid: findOneAndUpdate","errorCode":"COMMAND_FIELD_INVALID"}]}
{"errors":[{"message":"Command field invalid: replacement","errorCode":"COMMAND_FIELD_INVALID"}]}
{"errors":[{"message":"Command field invalid: options.returnDocument","errorCode":"COMMAND_FIELD_INVALID"}]}
{"errors":[{"message":"Command field invalid: options.upsert","errorCode":"COMMAND_FIELD_INVALID"}]}
{"errors":[{"message":"Command field invalid: projection","errorCode":"COMMAND_FIELD_INVALID"}]}
{"errors":[{"message":"Command field invalid: options.pageState","errorCode":"COMMAND_FIELD_INVALID"}]}
{"errors":[{"message":"Command field invalid: update","errorCode":"COMMAND_FIELD_INVALID"}]}
{"errors":[{"message":"Command field invalid: update","errorCode":"COMMAND_FIELD_INVALID"}]}
{"errors":[{"message":"Command limit sort is 8, found 9","errorCode":"COMMAND_LIMIT_VIOLATION"}]}
{"errors":[{"message":"Filter operator $nor is not supported","errorCode":"UNSUPPORTED_FILTER_OPERATION"}]}
{"errors":[{"message":"Filter is invalid at $or","errorCode":"INVALID_FILTER_EXPRESSION"}]}
{"errors":[{"message":"Update operator a is not supported","errorCode":"UNSUPPORTED_UPDATE_OPERATION"}]}
{"errors":[{"message":"Update operand is invalid for $set at a","errorCode":"UNSUPPORTED_UPDATE_OPERATION_PARAM"}]}
{"errors":[{"message":"Update paths conflict: a and a","errorCode":"UNSUPPORTED_UPDATE_OPERATION_PARAM"}]}
{"errors":[{"message":"Field _id is not changeable","errorCode":"UNSUPPORTED_UPDATE_FOR_DOC_ID"}]}
{"errors":[{"message":"Projection is invalid at a","errorCode":"UNSUPPORTED_PROJECTION_PARAM"}]}
{"errors":[{"message":"Sort is invalid at a","errorCode":"INVALID_SORT_CLAUSE"}]}
{"errors":[{"message":"Collection zz does not exist","errorCode":"COLLECTION_NOT_EXIST"}]}
{"data":{"document":null},"status":{"matchedCount":0,"modifiedCount":0}}
---
run --collection=c
/v1/ot/9c {"findOneAndReplace":"a"
/v1/ot {"findOneAndReplace":"a"}
/v1/ot/9c {"findOneAndReplace":"a","x":1}
/v1/ot/9c {"findOneAndReplace":"a"}
/v1/ks/9c {"findOneAndReplace":"a"}
/v1/ks/zz {"findOneAndReplace":"a"}
/v1/ks/zz {"findOneAndReplace":{"update":{},"options":{"returnDocument":1}}}
/v1/ks/zz {"findOneAndReplace":{"options":{"returnDocument":"AFTER"},"replacement":[]}}
/v1/ks/zz {"findOneAndReplace":{"options":{"ordered":true},"replacement":[]}}
/v1/ks/zz {"findOneAndReplace":{"replacement":[],"sort":1}}
/v1/ks/zz {"findOneAndReplace":{"replacement":{"$date":1},"sort":1}}
/v1/ks/zz {"findOneAndReplace":{"filter":{"$nor":[]},"sort":{"a":1,"b":1,"c":1,"d":1,"e":1,"f":1,"g":1,"h":1,"i":1}}}
/v1/ks/zz {"findOneAndReplace":{"filter":{"$nor":[]},"sort":{"a":1,"b":1,"c":1,"d":1,"e":1,"f":1,"g":1,"h":1,"i":1},"projection":{"a":2},"replacement":{"_id":[1]}}}
/v1/ks/zz {"findOneAndReplace":{"filter":{"$nor":[]},"sort":{"a":2},"projection":{"a":2},"replacement":{"_id":[1]}}}
/v1/ks/zz {"findOneAndReplace":{"filter":{"a":{"$size":-1}},"sort":{"a":2},"projection":{"a":2},"replacement":{"_id":[1]}}}
/v1/ks/zz {"findOneAndReplace":{"sort":{"a":2},"projection":{"a":2},"replacement":{"_id":[1]}}}
/v1/ks/zz {"findOneAndReplace":{"sort":{"a":2},"projection":{"a":1},"replacement":{"_id":[1]}}}
/v1/ks/zz {"findOneAndReplace":{"sort":{"a":1},"projection":{"a":1},"replacement":{"a b":1,"_id":[1]}}}
/v1/ks/zz {"findOneAndReplace":{"sort":{"a":1},"projection":{"a":1},"replacement":{"a b":1,"_id":""}}}
/v1/ks/zz {"findOneAndReplace":{"sort":{"a":1},"projection":{"a":1},"replacement":{"":[{"a b":1}],"c d":1}}}
/v1/ks/zz {"findOneAndReplace":{"sort":{"a":1},"projection":{"a":1},"replacement":{"":1,"_id":"q"}}}
/v1/ks/c {"findOneAndReplace":{"replacement":{"":1,"_id":"q"}}}
/v1/ks/c {"insertOne":{"document":{"_id":"p"}}}
/v1/ks/c {"findOneAndReplace":{"replacement":{"":1,"_id":"q"}}}
/v1/ks/c {"findOneAndReplace":{"replacement":{"":1,"_id":"p"}}}
/v1/ks/c {"findOneAndReplace":{"replacement":{"":1}}}
/v1/ks/c {"find":{}}
=> 0
{"errors":[{"message":"Body is not JSON at byte 24","errorCode":"INVALID_JSON"}]}
{"errors":[{"message":"No command matched","errorCode":"NO_COMMAND_MATCHED"}]}
{"errors":[{"message":"No command matched","errorCode":"NO_COMMAND_MATCHED"}]}
{"errors":[{"message":"Keyspace ot does not exist","errorCode":"KEYSPACE_NOT_EXIST"}]}
{"errors":[{"message":"Collection name is invalid: 9c","errorCode":"INVALID_COLLECTION_NAME"}]}
{"errors":[{"message":"Command field invalid: findOneAndReplace","errorCode":"COMMAND_FIELD_INVALID"}]}
{"errors":[{"message":"Command field invalid: update","errorCode":"COMMAND_FIELD_INVALID"}]}
{"errors":[{"message":"Command field invalid: options.returnDocument","errorCode":"COMMAND_FIELD_INVALID"}]}
{"errors":[{"message":"Command field invalid: options.ordered","errorCode":"COMMAND_FIELD_INVALID"}]}
{"errors":[{"message":"Command field invalid: replacement","errorCode":"COMMAND_FIELD_INVALID"}]}
{"errors":[{"message":"Command field invalid: replacement","errorCode":"COMMAND_FIELD_INVALID"}]}
{"errors":[{"message":"Command field invalid: replacement","errorCode":"COMMAND_FIELD_INVALID"}]}
{"errors":[{"message":"Command limit sort is 8, found 9","errorCode":"COMMAND_LIMIT_VIOLATION"}]}
{"errors":[{"message":"Filter operator $nor is not supported","errorCode":"UNSUPPORTED_FILTER_OPERATION"}]}
{"errors":[{"message":"Filter is invalid at a","errorCode":"INVALID_FILTER_EXPRESSION"}]}
{"errors":[{"message":"Projection is invalid at a","errorCode":"UNSUPPORTED_PROJECTION_PARAM"}]}
{"errors":[{"message":"Sort is invalid at a","errorCode":"INVALID_SORT_CLAUSE"}]}
{"errors":[{"message":"Field _id is of the wrong kind","errorCode":"SHRED_BAD_DOCID_TYPE"}]}
{"errors":[{"message":"Field _id is an empty text","errorCode":"SHRED_BAD_DOCID_EMPTY_STRING"}]}
{"errors":[{"message":"Member name is not allowed: a b","errorCode":"SHRED_DOC_KEY_NAME_VIOLATION"}]}
{"errors":[{"message":"Collection zz does not exist","errorCode":"COLLECTION_NOT_EXIST"}]}
{"data":{"document":null},"status":{"matchedCount":0,"modifiedCount":0}}
{"status":{"insertedIds":["p"]}}
{"errors":[{"message":"Field _id is not changeable","errorCode":"UNSUPPORTED_UPDATE_FOR_DOC_ID"}]}
{"errors":[{"message":"Document limit 3 is 1, found 0","errorCode":"SHRED_DOC_LIMIT_VIOLATION"}]}
{"errors":[{"message":"Document limit 3 is 1, found 0","errorCode":"SHRED_DOC_LIMIT_VIOLATION"}]}
{"data":{"documents":[{"_id":"p"}],"nextPageState":null}}
---
run --collection=c
/v1/ot/9c {"findOneAndDelete":[]
/v1/ot {"findOneAndDelete":[]}
/v1/ot/9c {"findOneAndDelete":[],"x":1}
/v1/ot/9c {"findOneAndDelete":[]}
/v1/ks/9c {"findOneAndDelete":[]}
/v1/ks/zz {"findOneAndDelete":[]}
/v1/ks/zz {"findOneAndDelete":{"update":{},"sort":1}}
/v1/ks/zz {"findOneAndDelete":{"options":{},"sort":1}}
/v1/ks/zz {"findOneAndDelete":{"projection":1,"sort":1}}
/v1/ks/zz {"findOneAndDelete":{"projection":{"a":2},"sort":{"a":1,"b":1,"c":1,"d":1,"e":1,"f":1,"g":1,"h":1,"i":1},"filter":null}}
/v1/ks/zz {"findOneAndDelete":{"projection":{"a":2},"sort":{"a":1,"b":1,"c":1,"d":1,"e":1,"f":1,"g":1,"h":1,"i":1},"filter":{"$nor":[]}}}
/v1/ks/zz {"findOneAndDelete":{"projection":{"a":2},"sort":{"a":2},"filter":{"$nor":[]}}}
/v1/ks/zz {"findOneAndDelete":{"projection":{"a":2},"sort":{"a":2},"filter":{"$and":[{"a":{"$all":1}}]}}}
/v1/ks/zz {"findOneAndDelete":{"projection":{"a":2},"sort":{"a":2}}}
/v1/ks/zz {"findOneAndDelete":{"projection":{"a":0},"sort":{"a":2}}}
/v1/ks/zz {"findOneAndDelete":{"projection":{"a":0},"sort":{"a":1}}}
/v1/ks/c {"findOneAndDelete":{"projection":{"a":0},"sort":{"a":1}}}
=> 0
{"errors":[{"message":"Body is not JSON at byte 22","errorCode":"INVALID_JSON"}]}
{"errors":[{"message":"No command matched","errorCode":"NO_COMMAND_MATCHED"}]}
{"errors":[{"message":"No command matched","errorCode":"NO_COMMAND_MATCHED"}]}
{"errors":[{"message":"Keyspace ot does not exist","errorCode":"KEYSPACE_NOT_EXIST"}]}
{"errors":[{"message":"Collection name is invalid: 9c","errorCode":"INVALID_COLLECTION_NAME"}]}
{"errors":[{"message":"Command field invalid: findOneAndDelete","errorCode":"COMMAND_FIELD_INVALID"}]}
{"errors":[{"message":"Command field invalid: update","errorCode":"COMMAND_FIELD_INVALID"}]}
{"errors":[{"message":"Command field invalid: options","errorCode":"COMMAND_FIELD_INVALID"}]}
{"errors":[{"message":"Command field invalid: projection","errorCode":"COMMAND_FIELD_INVALID"}]}
{"errors":[{"message":"Command field invalid: filter","errorCode":"COMMAND_FIELD_INVALID"}]}
{"errors":[{"message":"Command limit sort is 8, found 9","errorCode":"COMMAND_LIMIT_VIOLATION"}]}
{"errors":[{"message":"Filter operator $nor is not supported","errorCode":"UNSUPPORTED_FILTER_OPERATION"}]}
{"errors":[{"message":"Filter is invalid at a","errorCode":"INVALID_FILTER_EXPRESSION"}]}
{"errors":[{"message":"Projection is invalid at a","errorCode":"UNSUPPORTED_PROJECTION_PARAM"}]}
{"errors":[{"message":"Sort is invalid at a","errorCode":"INVALID_SORT_CLAUSE"}]}
{"errors":[{"message":"Collection zz does not exist","errorCode":"COLLECTION_NOT_EXIST"}]}
{"data":{"document":null},"status":{"deletedCount":0}}
---
run --collection=c
/v1/ot {"createCollection":{"x":1,"name":"9c"}
/v1/ot/c {"createCollection":{"x":1,"name":"9c"}}
/v1/ot {"createCollection":{"x":1,"name":"9c"},"x":1}
/v1/ot {"createCollection":{"x":1,"name":"9c"}}
/v1/ks {"createCollection":{"x":1,"name":"9c"}}
/v1/ks {"createCollection":{"name":"","x":1}}
/v1/ks {"createCollection":["9c"]}
/v1/ks {"createCollection":"9c"}
/v1/ks {"createCollection":{"x":1,"name":"d"}}
/v1/ks {"createCollection":{"x":1,"name":9}}
/v1/ks {"createCollection":{"name":9,"x":1}}
/v1/ks {"createCollection":{"name":"9c","name":null}}
/v1/ks {"createCollection":{"options":{},"name":"d"}}
/v1/ks {"createCollection":{}}
/v1/ks {"createCollection":{"name":"a-b"}}
/v1/ks {"createCollection":{"name":"ABCDEFGHIJKLMNOPQRSTUVWXYZ_abcdefghijklmnopqrstuv"}}
/v1/ks {"createCollection":{"name":"ABCDEFGHIJKLMNOPQRSTUVWXYZ_abcdefghijklmnopqrstu"}}
/v1/ks {"findCollections":{}}
=> 0
{"errors":[{"message":"Body is not JSON at byte 39","errorCode":"INVALID_JSON"}]}
{"errors":[{"message":"No command matched","errorCode":"NO_COMMAND_MATCHED"}]}
{"errors":[{"message":"No command matched","errorCode":"NO_COMMAND_MATCHED"}]}
{"errors":[{"message":"Keyspace ot does not exist","errorCode":"KEYSPACE_NOT_EXIST"}]}
{"errors":[{"message":"Collection name is invalid: 9c","errorCode":"INVALID_COLLECTION_NAME"}]}
{"errors":[{"message":"Collection name is invalid: ","errorCode":"INVALID_COLLECTION_NAME"}]}
{"errors":[{"message":"Command field invalid: createCollection","errorCode":"COMMAND_FIELD_INVALID"}]}
{"errors":[{"message":"Command field invalid: createCollection","errorCode":"COMMAND_FIELD_INVALID"}]}
{"errors":[{"message":"Command field invalid: x","errorCode":"COMMAND_FIELD_INVALID"}]}
{"errors":[{"message":"Command field invalid: x","errorCode":"COMMAND_FIELD_INVALID"}]}
{"errors":[{"message":"Command field invalid: name","errorCode":"COMMAND_FIELD_INVALID"}]}
{"errors":[{"message":"Command field invalid: name","errorCode":"COMMAND_FIELD_INVALID"}]}
{"errors":[{"message":"Command field invalid: options","errorCode":"COMMAND_FIELD_INVALID"}]}
{"errors":[{"message":"Command field invalid: name","errorCode":"COMMAND_FIELD_INVALID"}]}
{"errors":[{"message":"Collection name is invalid: a-b","errorCode":"INVALID_COLLECTION_NAME"}]}
{"errors":[{"message":"Collection name is invalid: ABCDEFGHIJKLMNOPQRSTUVWXYZ_abcdefghijklmnopqrstuv","errorCode":"INVALID_COLLECTION_NAME"}]}
{"status":{"ok":1}}
{"status":{"collections":["c","ABCDEFGHIJKLMNOPQRSTUVWXYZ_abcdefghijklmnopqrstu"]}}
---
run --collection=c
/v1/ot {"deleteCollection":{"x":1,"name":"9c"}
/v1/ot/c {"deleteCollection":{"x":1,"name":"9c"}}
/v1/ot {"deleteCollection":{"x":1,"name":"9c"},"x":1}
/v1/ot {"deleteCollection":{"x":1,"name":"9c"}}
/v1/ks {"deleteCollection":{"x":1,"name":"9c"}}
/v1/ks {"deleteCollection":{"name":"","x":1}}
/v1/ks {"deleteCollection":["9c"]}
/v1/ks {"deleteCollection":"9c"}
/v1/ks {"deleteCollection":{"x":1,"name":"d"}}
/v1/ks {"deleteCollection":{"x":1,"name":9}}
/v1/ks {"deleteCollection":{"name":9,"x":1}}
/v1/ks {"deleteCollection":{"name":"9c","name":null}}
/v1/ks {"deleteCollection":{"options":{},"name":"d"}}
/v1/ks {"deleteCollection":{}}
/v1/ks {"deleteCollection":{"name":"a-b"}}
/v1/ks {"deleteCollection":{"name":"ABCDEFGHIJKLMNOPQRSTUVWXYZ_abcdefghijklmnopqrstuv"}}
/v1/ks {"deleteCollection":{"name":"ABCDEFGHIJKLMNOPQRSTUVWXYZ_abcdefghijklmnopqrstu"}}
/v1/ks {"findCollections":{}}
=> 0
{"errors":[{"message":"Body is not JSON at byte 39","errorCode":"INVALID_JSON"}]}
{"errors":[{"message":"No command matched","errorCode":"NO_COMMAND_MATCHED"}]}
{"errors":[{"message":"No command matched","errorCode":"NO_COMMAND_MATCHED"}]}
{"errors":[{"message":"Keyspace ot does not exist","errorCode":"KEYSPACE_NOT_EXIST"}]}
{"errors":[{"message":"Collection name is invalid: 9c","errorCode":"INVALID_COLLECTION_NAME"}]}
{"errors":[{"message":"Collection name is invalid: ","errorCode":"INVALID_COLLECTION_NAME"}]}
{"errors":[{"message":"Command field invalid: deleteCollection","errorCode":"COMMAND_FIELD_INVALID"}]}
{"errors":[{"message":"Command field invalid: deleteCollection","errorCode":"COMMAND_FIELD_INVALID"}]}
{"errors":[{"message":"Command field invalid: x","errorCode":"COMMAND_FIELD_INVALID"}]}
{"errors":[{"message":"Command field invalid: x","errorCode":"COMMAND_FIELD_INVALID"}]}
{"errors":[{"message":"Command field invalid: name","errorCode":"COMMAND_FIELD_INVALID"}]}
{"errors":[{"message":"Command field invalid: name","errorCode":"COMMAND_FIELD_INVALID"}]}
{"errors":[{"message":"Command field invalid: options","errorCode":"COMMAND_FIELD_INVALID"}]}
{"errors":[{"message":"Command field invalid: name","errorCode":"COMMAND_FIELD_INVALID"}]}
{"errors":[{"message":"Collection name is invalid: a-b","errorCode":"INVALID_COLLECTION_NAME"}]}
{"errors":[{"message":"Collection name is invalid: ABCDEFGHIJKLMNOPQRSTUVWXYZ_abcdefghijklmnopqrstuv","errorCode":"INVALID_COLLECTION_NAME"}]}
{"status":{"ok":1}}
{"status":{"collections":["c"]}}
---
run --collection=c
/v1/ot {"findCollections":{"name":"9c"}
/v1/ot/c {"findCollections":{"name":"9c"}}
/v1/ot {"findCollections":{"name":"9c"},"x":1}
/v1/ot {"findCollections":{"name":"9c"}}
/v1/ks {"findCollections":{"name":"9c"}}
/v1/ks {"findCollections":[]}
/v1/ks {"findCollections":{"options":{}}}
/v1/ks {"findCollections":{"filter":{}}}
/v1/ks {"findcollections":{}}
/v1/ks {"find":{}}
/v1/ks/c {"findCollections":{}}
/v1/ks {"findCollections":{}}
=> 0
{"errors":[{"message":"Body is not JSON at byte 32","errorCode":"INVALID_JSON"}]}
{"errors":[{"message":"No command matched","errorCode":"NO_COMMAND_MATCHED"}]}
{"errors":[{"message":"No command matched","errorCode":"NO_COMMAND_MATCHED"}]}
{"errors":[{"message":"Keyspace ot does not exist","errorCode":"KEYSPACE_NOT_EXIST"}]}
{"errors":[{"message":"Command field invalid: name","errorCode":"COMMAND_FIELD_INVALID"}]}
{"errors":[{"message":"Command field invalid: findCollections","errorCode":"COMMAND_FIELD_INVALID"}]}
{"errors":[{"message":"Command field invalid: options","errorCode":"COMMAND_FIELD_INVALID"}]}
{"errors":[{"message":"Command field invalid: filter","errorCode":"COMMAND_FIELD_INVALID"}]}
{"errors":[{"message":"No command matched","errorCode":"NO_COMMAND_MATCHED"}]}
{"errors":[{"message":"No command matched","errorCode":"NO_COMMAND_MATCHED"}]}
{"errors":[{"message":"No command matched","errorCode":"NO_COMMAND_MATCHED"}]}
{"status":{"collections":["c"]}}
"#;
