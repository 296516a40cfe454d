// Rows of sorts and projections, in the form of the other rows.

// Values of all kinds and none, ties, several keys, both directions, and which of what was sorted is shown.
pub(super) const SORTS: &str = r#"run --collection=c
/v1/ks/c {"insertOne":{"document":{"_id":"p","v":null}}}
/v1/ks/c {"insertOne":{"document":{"_id":"q","v":2}}}
/v1/ks/c {"insertOne":{"document":{"_id":"r","v":"s"}}}
/v1/ks/c {"insertOne":{"document":{"_id":"s","v":true}}}
/v1/ks/c {"insertOne":{"document":{"_id":"t","v":{"$date":0}}}}
/v1/ks/c {"insertOne":{"document":{"_id":"u","v":[1]}}}
/v1/ks/c {"insertOne":{"document":{"_id":"v"}}}
/v1/ks/c {"insertOne":{"document":{"_id":"w","v":2}}}
/v1/ks/c {"find":{"sort":{"v":1},"projection":{"_id":1}}}
/v1/ks/c {"find":{"sort":{"v":-1},"projection":{"_id":1}}}
/v1/ks/c {"find":{"sort":{"v":1}}}
/v1/ks/c {"insertOne":{"document":{"_id":"x","v":false}}}
/v1/ks/c {"insertOne":{"document":{"_id":"y","v":{"$date":-5}}}}
/v1/ks/c {"insertOne":{"document":{"_id":"z","v":"S"}}}
/v1/ks/c {"insertOne":{"document":{"_id":1,"v":-0.5}}}
/v1/ks/c {"insertOne":{"document":{"_id":"ab","v":{"k":9}}}}
/v1/ks/c {"insertOne":{"document":{"_id":"aa","v":[]}}}
/v1/ks/c {"insertOne":{"document":{"_id":true,"v":"s0"}}}
/v1/ks/c {"find":{"sort":{"v":1},"projection":{"_id":1}}}
/v1/ks/c {"find":{"sort":{"v":-1},"projection":{"_id":1}}}
/v1/ks/c {"find":{"sort":{"v":1.0},"options":{"skip":4,"limit":3},"projection":{"_id":1}}}
/v1/ks/c {"find":{"sort":{"v":-1.00},"filter":{"v":{"$exists":true}},"options":{"skip":9},"projection":{"_id":1}}}
/v1/ks/c {"find":{"sort":{"_id":1},"projection":{"_id":1}}}
/v1/ks/c {"find":{"sort":{"_id":-1},"projection":{"_id":1}}}
/v1/ks/c {"find":{"sort":{"zz":-1},"projection":{"_id":1}}}
/v1/ks/c {"find":{"sort":{"v.0":1},"options":{"limit":3},"projection":{"_id":1}}}
/v1/ks/c {"find":{"sort":{"v.0":-1},"options":{"limit":3},"projection":{"_id":1}}}
/v1/ks/c {"find":{"sort":{"v.k":-1,"v":1},"options":{"limit":4},"projection":{"_id":1}}}
=> 0
{"status":{"insertedIds":["p"]}}
{"status":{"insertedIds":["q"]}}
{"status":{"insertedIds":["r"]}}
{"status":{"insertedIds":["s"]}}
{"status":{"insertedIds":["t"]}}
{"status":{"insertedIds":["u"]}}
{"status":{"insertedIds":["v"]}}
{"status":{"insertedIds":["w"]}}
{"data":{"documents":[{"_id":"u"},{"_id":"v"},{"_id":"p"},{"_id":"q"},{"_id":"w"},{"_id":"r"},{"_id":"s"},{"_id":"t"}],"nextPageState":null}}
{"data":{"documents":[{"_id":"t"},{"_id":"s"},{"_id":"r"},{"_id":"q"},{"_id":"w"},{"_id":"p"},{"_id":"u"},{"_id":"v"}],"nextPageState":null}}
{"data":{"documents":[{"_id":"u","v":[1]},{"_id":"v"},{"_id":"p","v":null},{"_id":"q","v":2},{"_id":"w","v":2},{"_id":"r","v":"s"},{"_id":"s","v":true},{"_id":"t","v":{"$date":0}}],"nextPageState":null}}
{"status":{"insertedIds":["x"]}}
{"status":{"insertedIds":["y"]}}
{"status":{"insertedIds":["z"]}}
{"status":{"insertedIds":[1]}}
{"status":{"insertedIds":["ab"]}}
{"status":{"insertedIds":["aa"]}}
{"status":{"insertedIds":[true]}}
{"data":{"documents":[{"_id":"aa"},{"_id":"ab"},{"_id":"u"},{"_id":"v"},{"_id":"p"},{"_id":1},{"_id":"q"},{"_id":"w"},{"_id":"z"},{"_id":"r"},{"_id":true},{"_id":"x"},{"_id":"s"},{"_id":"y"},{"_id":"t"}],"nextPageState":null}}
{"data":{"documents":[{"_id":"t"},{"_id":"y"},{"_id":"s"},{"_id":"x"},{"_id":true},{"_id":"r"},{"_id":"z"},{"_id":"q"},{"_id":"w"},{"_id":1},{"_id":"p"},{"_id":"aa"},{"_id":"ab"},{"_id":"u"},{"_id":"v"}],"nextPageState":null}}
{"data":{"documents":[{"_id":"p"},{"_id":1},{"_id":"q"}],"nextPageState":null}}
{"data":{"documents":[{"_id":1},{"_id":"p"},{"_id":"aa"},{"_id":"ab"},{"_id":"u"}],"nextPageState":null}}
{"data":{"documents":[{"_id":1},{"_id":"aa"},{"_id":"ab"},{"_id":"p"},{"_id":"q"},{"_id":"r"},{"_id":"s"},{"_id":"t"},{"_id":"u"},{"_id":"v"},{"_id":"w"},{"_id":"x"},{"_id":"y"},{"_id":"z"},{"_id":true}],"nextPageState":null}}
{"data":{"documents":[{"_id":true},{"_id":"z"},{"_id":"y"},{"_id":"x"},{"_id":"w"},{"_id":"v"},{"_id":"u"},{"_id":"t"},{"_id":"s"},{"_id":"r"},{"_id":"q"},{"_id":"p"},{"_id":"ab"},{"_id":"aa"},{"_id":1}],"nextPageState":null}}
{"data":{"documents":[{"_id":"aa"},{"_id":"ab"},{"_id":"p"},{"_id":"q"},{"_id":"r"},{"_id":"s"},{"_id":"t"},{"_id":"u"},{"_id":"v"},{"_id":"w"},{"_id":"x"},{"_id":"y"},{"_id":"z"},{"_id":1},{"_id":true}],"nextPageState":null}}
{"data":{"documents":[{"_id":"aa"},{"_id":"ab"},{"_id":"p"}],"nextPageState":null}}
{"data":{"documents":[{"_id":"u"},{"_id":"aa"},{"_id":"ab"}],"nextPageState":null}}
{"data":{"documents":[{"_id":"ab"},{"_id":"aa"},{"_id":"u"},{"_id":"v"}],"nextPageState":null}}
---
run --collection=c
/v1/ks/c {"insertOne":{"document":{"_id":5,"a":1,"b":{"c":2}}}}
/v1/ks/c {"insertOne":{"document":{"_id":3,"a":1,"b":{"c":2}}}}
/v1/ks/c {"insertOne":{"document":{"_id":4,"a":2,"b":{"c":1}}}}
/v1/ks/c {"insertOne":{"document":{"_id":1,"a":2}}}
/v1/ks/c {"insertOne":{"document":{"_id":2,"a":1,"b":{"c":3}}}}
/v1/ks/c {"insertOne":{"document":{"_id":6,"b":{"c":7}}}}
/v1/ks/c {"insertOne":{"document":{"_id":7,"a":2,"b":{"c":1}}}}
/v1/ks/c {"find":{"sort":{"a":1,"b.c":1},"projection":{"_id":1}}}
/v1/ks/c {"find":{"sort":{"a":1,"b.c":-1},"projection":{"_id":1}}}
/v1/ks/c {"find":{"sort":{"a":-1,"b.c":1},"projection":{"_id":1}}}
/v1/ks/c {"find":{"sort":{"b.c":-1,"a":-1},"projection":{"_id":1}}}
/v1/ks/c {"find":{"sort":{"a":1,"a":-1},"projection":{"_id":1}}}
/v1/ks/c {"find":{"sort":{"a":1,"b":1,"b.c":1},"projection":{"_id":1}}}
/v1/ks/c {"find":{"sort":{"zz":1},"projection":{"_id":1}}}
/v1/ks/c {"find":{"sort":{},"projection":{"_id":1}}}
/v1/ks/c {"find":{"sort":{"a":1,"b.c":-1},"projection":{"_id":1},"options":{"skip":0,"limit":0}}}
/v1/ks/c {"find":{"sort":{"a":1,"b.c":-1},"projection":{"_id":1},"options":{"skip":2}}}
/v1/ks/c {"find":{"sort":{"a":1,"b.c":-1},"projection":{"_id":1},"options":{"limit":2}}}
/v1/ks/c {"find":{"sort":{"a":1,"b.c":-1},"projection":{"_id":1},"options":{"skip":2,"limit":2}}}
/v1/ks/c {"find":{"sort":{"a":1,"b.c":-1},"projection":{"_id":1},"options":{"skip":5,"limit":9}}}
/v1/ks/c {"find":{"sort":{"a":1,"b.c":-1},"projection":{"_id":1},"options":{"skip":6}}}
/v1/ks/c {"find":{"sort":{"a":1,"b.c":-1},"projection":{"_id":1},"options":{"skip":7}}}
/v1/ks/c {"find":{"sort":{"a":1,"b.c":-1},"projection":{"_id":1},"options":{"skip":480}}}
/v1/ks/c {"find":{"sort":{"a":1,"b.c":-1},"projection":{"_id":1},"options":{"limit":2147483647}}}
/v1/ks/c {"find":{"sort":{"a":1,"b.c":-1},"projection":{"_id":1},"options":{"limit":20,"skip":1}}}
/v1/ks/c {"find":{"sort":{"a":1,"b.c":-1},"projection":{"_id":1},"options":{"skip":1,"limit":1}}}
/v1/ks/c {"find":{"filter":{"a":1},"sort":{"a":1,"b.c":-1},"projection":{"_id":1},"options":{"skip":1,"limit":1}}}
/v1/ks/c {"find":{"filter":{"a":9},"sort":{"a":1,"b.c":-1},"projection":{"_id":1}}}
/v1/ks/c {"find":{"filter":{"a":{"$gt":1}},"sort":{"b.c":1}}}
=> 0
{"status":{"insertedIds":[5]}}
{"status":{"insertedIds":[3]}}
{"status":{"insertedIds":[4]}}
{"status":{"insertedIds":[1]}}
{"status":{"insertedIds":[2]}}
{"status":{"insertedIds":[6]}}
{"status":{"insertedIds":[7]}}
{"data":{"documents":[{"_id":6},{"_id":3},{"_id":5},{"_id":2},{"_id":1},{"_id":4},{"_id":7}],"nextPageState":null}}
{"data":{"documents":[{"_id":6},{"_id":2},{"_id":3},{"_id":5},{"_id":4},{"_id":7},{"_id":1}],"nextPageState":null}}
{"data":{"documents":[{"_id":1},{"_id":4},{"_id":7},{"_id":3},{"_id":5},{"_id":2},{"_id":6}],"nextPageState":null}}
{"data":{"documents":[{"_id":6},{"_id":2},{"_id":3},{"_id":5},{"_id":4},{"_id":7},{"_id":1}],"nextPageState":null}}
{"data":{"documents":[{"_id":1},{"_id":4},{"_id":7},{"_id":2},{"_id":3},{"_id":5},{"_id":6}],"nextPageState":null}}
{"data":{"documents":[{"_id":6},{"_id":3},{"_id":5},{"_id":2},{"_id":1},{"_id":4},{"_id":7}],"nextPageState":null}}
{"data":{"documents":[{"_id":1},{"_id":2},{"_id":3},{"_id":4},{"_id":5},{"_id":6},{"_id":7}],"nextPageState":null}}
{"data":{"documents":[{"_id":1},{"_id":2},{"_id":3},{"_id":4},{"_id":5},{"_id":6},{"_id":7}],"nextPageState":null}}
{"data":{"documents":[{"_id":6},{"_id":2},{"_id":3},{"_id":5},{"_id":4},{"_id":7},{"_id":1}],"nextPageState":null}}
{"data":{"documents":[{"_id":3},{"_id":5},{"_id":4},{"_id":7},{"_id":1}],"nextPageState":null}}
{"data":{"documents":[{"_id":6},{"_id":2}],"nextPageState":null}}
{"data":{"documents":[{"_id":3},{"_id":5}],"nextPageState":null}}
{"data":{"documents":[{"_id":7},{"_id":1}],"nextPageState":null}}
{"data":{"documents":[{"_id":1}],"nextPageState":null}}
{"data":{"documents":[],"nextPageState":null}}
{"data":{"documents":[],"nextPageState":null}}
{"data":{"documents":[{"_id":6},{"_id":2},{"_id":3},{"_id":5},{"_id":4},{"_id":7},{"_id":1}],"nextPageState":null}}
{"data":{"documents":[{"_id":2},{"_id":3},{"_id":5},{"_id":4},{"_id":7},{"_id":1}],"nextPageState":null}}
{"data":{"documents":[{"_id":2}],"nextPageState":null}}
{"data":{"documents":[{"_id":3}],"nextPageState":null}}
{"data":{"documents":[],"nextPageState":null}}
{"data":{"documents":[{"_id":1,"a":2},{"_id":4,"a":2,"b":{"c":1}},{"_id":7,"a":2,"b":{"c":1}}],"nextPageState":null}}
---
run --collection=c
/v1/ks/c {"insertOne":{"document":{"_id":1,"k":1}}}
/v1/ks/c {"insertOne":{"document":{"_id":2,"k":2}}}
/v1/ks/c {"insertOne":{"document":{"_id":3,"k":0}}}
/v1/ks/c {"insertOne":{"document":{"_id":4,"k":1}}}
/v1/ks/c {"insertOne":{"document":{"_id":5,"k":2}}}
/v1/ks/c {"insertOne":{"document":{"_id":6,"k":0}}}
/v1/ks/c {"insertOne":{"document":{"_id":7,"k":1}}}
/v1/ks/c {"insertOne":{"document":{"_id":8,"k":2}}}
/v1/ks/c {"insertOne":{"document":{"_id":9,"k":0}}}
/v1/ks/c {"insertOne":{"document":{"_id":10,"k":1}}}
/v1/ks/c {"insertOne":{"document":{"_id":11,"k":2}}}
/v1/ks/c {"insertOne":{"document":{"_id":12,"k":0}}}
/v1/ks/c {"insertOne":{"document":{"_id":13,"k":1}}}
/v1/ks/c {"insertOne":{"document":{"_id":14,"k":2}}}
/v1/ks/c {"insertOne":{"document":{"_id":15,"k":0}}}
/v1/ks/c {"insertOne":{"document":{"_id":16,"k":1}}}
/v1/ks/c {"insertOne":{"document":{"_id":17,"k":2}}}
/v1/ks/c {"insertOne":{"document":{"_id":18,"k":0}}}
/v1/ks/c {"insertOne":{"document":{"_id":19,"k":1}}}
/v1/ks/c {"insertOne":{"document":{"_id":20,"k":2}}}
/v1/ks/c {"insertOne":{"document":{"_id":21,"k":0}}}
/v1/ks/c {"insertOne":{"document":{"_id":22,"k":1}}}
/v1/ks/c {"insertOne":{"document":{"_id":23,"k":2}}}
/v1/ks/c {"find":{"sort":{"k":-1},"options":{},"projection":{"_id":1}}}
/v1/ks/c {"find":{"sort":{"k":-1},"options":{"limit":20},"projection":{"_id":1}}}
/v1/ks/c {"find":{"sort":{"k":-1},"options":{"limit":21},"projection":{"_id":1}}}
/v1/ks/c {"find":{"sort":{"k":-1},"options":{"limit":0},"projection":{"_id":1}}}
/v1/ks/c {"find":{"sort":{"k":-1},"options":{"skip":3},"projection":{"_id":1}}}
/v1/ks/c {"find":{"sort":{"k":-1},"options":{"skip":4},"projection":{"_id":1}}}
/v1/ks/c {"find":{"sort":{"k":-1},"options":{"skip":20},"projection":{"_id":1}}}
/v1/ks/c {"find":{"sort":{"k":-1},"options":{"skip":22,"limit":5},"projection":{"_id":1}}}
/v1/ks/c {"find":{"sort":{"k":-1},"options":{"skip":23},"projection":{"_id":1}}}
=> 0
{"status":{"insertedIds":[1]}}
{"status":{"insertedIds":[2]}}
{"status":{"insertedIds":[3]}}
{"status":{"insertedIds":[4]}}
{"status":{"insertedIds":[5]}}
{"status":{"insertedIds":[6]}}
{"status":{"insertedIds":[7]}}
{"status":{"insertedIds":[8]}}
{"status":{"insertedIds":[9]}}
{"status":{"insertedIds":[10]}}
{"status":{"insertedIds":[11]}}
{"status":{"insertedIds":[12]}}
{"status":{"insertedIds":[13]}}
{"status":{"insertedIds":[14]}}
{"status":{"insertedIds":[15]}}
{"status":{"insertedIds":[16]}}
{"status":{"insertedIds":[17]}}
{"status":{"insertedIds":[18]}}
{"status":{"insertedIds":[19]}}
{"status":{"insertedIds":[20]}}
{"status":{"insertedIds":[21]}}
{"status":{"insertedIds":[22]}}
{"status":{"insertedIds":[23]}}
{"data":{"documents":[{"_id":2},{"_id":5},{"_id":8},{"_id":11},{"_id":14},{"_id":17},{"_id":20},{"_id":23},{"_id":1},{"_id":4},{"_id":7},{"_id":10},{"_id":13},{"_id":16},{"_id":19},{"_id":22},{"_id":3},{"_id":6},{"_id":9},{"_id":12}],"nextPageState":null}}
{"data":{"documents":[{"_id":2},{"_id":5},{"_id":8},{"_id":11},{"_id":14},{"_id":17},{"_id":20},{"_id":23},{"_id":1},{"_id":4},{"_id":7},{"_id":10},{"_id":13},{"_id":16},{"_id":19},{"_id":22},{"_id":3},{"_id":6},{"_id":9},{"_id":12}],"nextPageState":null}}
{"data":{"documents":[{"_id":2},{"_id":5},{"_id":8},{"_id":11},{"_id":14},{"_id":17},{"_id":20},{"_id":23},{"_id":1},{"_id":4},{"_id":7},{"_id":10},{"_id":13},{"_id":16},{"_id":19},{"_id":22},{"_id":3},{"_id":6},{"_id":9},{"_id":12}],"nextPageState":null}}
{"data":{"documents":[{"_id":2},{"_id":5},{"_id":8},{"_id":11},{"_id":14},{"_id":17},{"_id":20},{"_id":23},{"_id":1},{"_id":4},{"_id":7},{"_id":10},{"_id":13},{"_id":16},{"_id":19},{"_id":22},{"_id":3},{"_id":6},{"_id":9},{"_id":12}],"nextPageState":null}}
{"data":{"documents":[{"_id":11},{"_id":14},{"_id":17},{"_id":20},{"_id":23},{"_id":1},{"_id":4},{"_id":7},{"_id":10},{"_id":13},{"_id":16},{"_id":19},{"_id":22},{"_id":3},{"_id":6},{"_id":9},{"_id":12},{"_id":15},{"_id":18},{"_id":21}],"nextPageState":null}}
{"data":{"documents":[{"_id":14},{"_id":17},{"_id":20},{"_id":23},{"_id":1},{"_id":4},{"_id":7},{"_id":10},{"_id":13},{"_id":16},{"_id":19},{"_id":22},{"_id":3},{"_id":6},{"_id":9},{"_id":12},{"_id":15},{"_id":18},{"_id":21}],"nextPageState":null}}
{"data":{"documents":[{"_id":15},{"_id":18},{"_id":21}],"nextPageState":null}}
{"data":{"documents":[{"_id":21}],"nextPageState":null}}
{"data":{"documents":[],"nextPageState":null}}
---
"#;

// The first by a sort, found and updated; spent numbers and failed calls of the keeper.
pub(super) const FIRSTS: &str = r#"run --collection=c
/v1/ks/c {"insertOne":{"document":{"_id":"a","n":2,"t":"x"}}}
/v1/ks/c {"insertOne":{"document":{"_id":"b","n":1,"t":"y"}}}
/v1/ks/c {"insertOne":{"document":{"_id":"c","n":2,"t":"z"}}}
/v1/ks/c {"insertOne":{"document":{"_id":"d"}}}
/v1/ks/c {"findOne":{"sort":{"n":1}}}
/v1/ks/c {"findOne":{"sort":{"n":-1}}}
/v1/ks/c {"findOne":{"sort":{"n":-1,"t":-1}}}
/v1/ks/c {"findOne":{"filter":{"n":{"$exists":true}},"sort":{"n":1}}}
/v1/ks/c {"findOne":{"filter":{"n":2},"sort":{"t":-1},"projection":{"t":1,"_id":0}}}
/v1/ks/c {"findOne":{"filter":{"n":5},"sort":{"n":1}}}
/v1/ks/c {"findOne":{"sort":{}}}
/v1/ks/c {"findOne":{"projection":{}}}
/v1/ks/c {"findOne":{"sort":{"_id":-1}}}
/v1/ks/c {"updateOne":{"sort":{"n":-1},"update":{"$inc":{"n":-3}}}}
/v1/ks/c {"findOne":{"sort":{"n":-1}}}
/v1/ks/c {"findOne":{"filter":{"_id":"a"}}}
/v1/ks/c {"updateOne":{"filter":{"n":{"$exists":true}},"sort":{"n":1,"t":1},"update":{"$set":{"t":"w"}}}}
/v1/ks/c {"findOne":{"filter":{"_id":"a"}}}
/v1/ks/c {"updateOne":{"filter":{"t":"w"},"sort":{"n":1},"update":{"$set":{"t":"w"}}}}
/v1/ks/c {"updateOne":{"filter":{"t":"none"},"sort":{"n":1},"update":{"$set":{"t":"w"}}}}
/v1/ks/c {"updateOne":{"sort":{"n":-1,"t":-1},"update":{"$inc":{"t":1}},"options":{}}}
/v1/ks/c {"updateOne":{"sort":{"n":1},"update":{"$set":{"n":9}}}}
/v1/ks/c {"updateOne":{"sort":{},"update":{"$set":{"first":true}}}}
/v1/ks/c {"find":{}}
/v1/ks/c {"updateOne":{"sort":{"t":1},"update":{"$push":{"log":1}}}}
/v1/ks/c {"updateOne":{"sort":{"t":1},"update":{"$push":{"log":2}}}}
/v1/ks/c {"find":{"sort":{"log":-1,"t":1},"projection":{"log":1}}}
/v1/ks/c {"insertOne":{"document":{"_id":"a"}}}
/v1/ks/c {"insertOne":{"document":{"_id":"d"}}}
=> 0
{"status":{"insertedIds":["a"]}}
{"status":{"insertedIds":["b"]}}
{"status":{"insertedIds":["c"]}}
{"status":{"insertedIds":["d"]}}
{"data":{"document":{"_id":"d"}}}
{"data":{"document":{"_id":"a","n":2,"t":"x"}}}
{"data":{"document":{"_id":"c","n":2,"t":"z"}}}
{"data":{"document":{"_id":"b","n":1,"t":"y"}}}
{"data":{"document":{"t":"z"}}}
{"data":{"document":null}}
{"data":{"document":{"_id":"a","n":2,"t":"x"}}}
{"data":{"document":{"_id":"a","n":2,"t":"x"}}}
{"data":{"document":{"_id":"d"}}}
{"status":{"matchedCount":1,"modifiedCount":1}}
{"data":{"document":{"_id":"c","n":2,"t":"z"}}}
{"data":{"document":{"_id":"a","n":-1,"t":"x"}}}
{"status":{"matchedCount":1,"modifiedCount":1}}
{"data":{"document":{"_id":"a","n":-1,"t":"w"}}}
{"status":{"matchedCount":1,"modifiedCount":0}}
{"status":{"matchedCount":0,"modifiedCount":0}}
{"errors":[{"message":"Update target is of the wrong kind at t","errorCode":"UNSUPPORTED_UPDATE_OPERATION_TARGET"}]}
{"status":{"matchedCount":1,"modifiedCount":1}}
{"status":{"matchedCount":1,"modifiedCount":1}}
{"data":{"documents":[{"_id":"a","n":-1,"t":"w","first":true},{"_id":"b","n":1,"t":"y"},{"_id":"c","n":2,"t":"z"},{"_id":"d","n":9}],"nextPageState":null}}
{"status":{"matchedCount":1,"modifiedCount":1}}
{"status":{"matchedCount":1,"modifiedCount":1}}
{"data":{"documents":[{"_id":"d","log":[1,2]},{"_id":"a"},{"_id":"b"},{"_id":"c"}],"nextPageState":null}}
{"errors":[{"message":"Document \"a\" already exists at version 8","errorCode":"DOCUMENT_ALREADY_EXISTS"}]}
{"errors":[{"message":"Document \"d\" already exists at version 10","errorCode":"DOCUMENT_ALREADY_EXISTS"}]}
---
run --collection=c | last=9223372036854775805
/v1/ks/c {"insertOne":{"document":{"_id":"a"}}}
/v1/ks/c {"updateOne":{"sort":{"n":1},"update":{"$set":{"n":1}}}}
/v1/ks/c {"updateOne":{"sort":{"n":1},"update":{"$unset":{"n":1}}}}
/v1/ks/c {"find":{"sort":{"n":1}}}
=> 0
{"status":{"insertedIds":["a"]}}
{"errors":[{"message":"No version numbers are left","errorCode":"VERSIONS_SPENT"}]}
{"status":{"matchedCount":1,"modifiedCount":0}}
{"data":{"documents":[{"_id":"a"}],"nextPageState":null}}
---
run --collection=c | keeper=4
/v1/ks/c {"insertOne":{"document":{"_id":"a"}}}
/v1/ks/c {"updateOne":{"sort":{"n":1},"update":{"$set":{"n":1}}}}
/v1/ks/c {"findOne":{"sort":{"n":1}}}
=> 0
{"status":{"insertedIds":["a"]}}
{"errors":[{"message":"Store fault: 0 then 1","errorCode":"STORE_FAULT"}]}
{"data":{"document":{"_id":"a"}}}
---
run --collection=c | keeper=5
/v1/ks/c {"insertOne":{"document":{"_id":"a"}}}
/v1/ks/c {"updateOne":{"sort":{"n":1},"update":{"$set":{"n":1}}}}
/v1/ks/c {"findOne":{"sort":{"n":1}}}
=> 0
{"status":{"insertedIds":["a"]}}
{"errors":[{"message":"Store fault: 0 then 1","errorCode":"STORE_FAULT"}]}
{"data":{"document":{"_id":"a"}}}
---
run --collection=c | keeper=4
/v1/ks/c {"insertOne":{"document":{"_id":"a"}}}
/v1/ks/c {"findOne":{"sort":{"n":1},"projection":{"_id":1}}}
/v1/ks/c {"findOne":{"projection":{"_id":0}}}
=> 0
{"status":{"insertedIds":["a"]}}
{"errors":[{"message":"Store fault: 0 then 1","errorCode":"STORE_FAULT"}]}
{"data":{"document":{}}}
---
"#;

// What projections show.
pub(super) const VIEWS: &str = r#"run --collection=c
/v1/ks/c {"insertOne":{"document":{"_id":"p","a":{"b":1,"c":2},"l":[1,2,3]}}}
/v1/ks/c {"findOne":{"projection":{"a.b":1,"l":{"$slice":-2}}}}
/v1/ks/c {"findOne":{"projection":{"a.b":0,"_id":0}}}
/v1/ks/c {"findOne":{"projection":{"a.b":1,"l":0}}}
/v1/ks/c {"findOne":{"projection":{}}}
/v1/ks/c {"findOne":{"projection":{"_id":1}}}
/v1/ks/c {"findOne":{"projection":{"_id":true}}}
/v1/ks/c {"findOne":{"projection":{"_id":0}}}
/v1/ks/c {"findOne":{"projection":{"_id":false,"a":1}}}
/v1/ks/c {"findOne":{"projection":{"_id":1,"a":0}}}
/v1/ks/c {"findOne":{"projection":{"_id":0,"a":0,"l":0}}}
/v1/ks/c {"findOne":{"projection":{"_id":0,"zz":1}}}
/v1/ks/c {"findOne":{"projection":{"zz":1}}}
/v1/ks/c {"findOne":{"projection":{"zz":0}}}
/v1/ks/c {"findOne":{"projection":{"a":1}}}
/v1/ks/c {"findOne":{"projection":{"a":true,"l":1.0}}}
/v1/ks/c {"findOne":{"projection":{"a":false}}}
/v1/ks/c {"findOne":{"projection":{"l":1,"a.c":1}}}
/v1/ks/c {"findOne":{"projection":{"a.c":1,"l":1}}}
/v1/ks/c {"findOne":{"projection":{"a.zz":1}}}
/v1/ks/c {"findOne":{"projection":{"a.zz":0}}}
/v1/ks/c {"findOne":{"projection":{"a.b.x":1}}}
/v1/ks/c {"findOne":{"projection":{"a.b.x":0}}}
/v1/ks/c {"findOne":{"projection":{"l.0":1}}}
/v1/ks/c {"findOne":{"projection":{"l.0":0}}}
/v1/ks/c {"findOne":{"projection":{"a.b":1,"a.c":1}}}
/v1/ks/c {"findOne":{"projection":{"a.b":0,"a.c":0}}}
/v1/ks/c {"findOne":{"projection":{"l":{"$slice":1}}}}
/v1/ks/c {"findOne":{"projection":{"_id":1,"l":{"$slice":1}}}}
/v1/ks/c {"findOne":{"projection":{"_id":0,"l":{"$slice":1}}}}
/v1/ks/c {"findOne":{"projection":{"a":0,"l":{"$slice":1}}}}
/v1/ks/c {"findOne":{"projection":{"a":1,"l":{"$slice":1}}}}
/v1/ks/c {"findOne":{"projection":{"l":{"$slice":0}}}}
/v1/ks/c {"findOne":{"projection":{"l":{"$slice":2}}}}
/v1/ks/c {"findOne":{"projection":{"l":{"$slice":9}}}}
/v1/ks/c {"findOne":{"projection":{"l":{"$slice":-1}}}}
/v1/ks/c {"findOne":{"projection":{"l":{"$slice":-9}}}}
/v1/ks/c {"findOne":{"projection":{"l":{"$slice":[1,1]}}}}
/v1/ks/c {"findOne":{"projection":{"l":{"$slice":[1,9]}}}}
/v1/ks/c {"findOne":{"projection":{"l":{"$slice":[3,1]}}}}
/v1/ks/c {"findOne":{"projection":{"l":{"$slice":[9,1]}}}}
/v1/ks/c {"findOne":{"projection":{"l":{"$slice":[-2,1]}}}}
/v1/ks/c {"findOne":{"projection":{"l":{"$slice":[-9,2]}}}}
/v1/ks/c {"findOne":{"projection":{"l":{"$slice":[-1,9]}}}}
/v1/ks/c {"findOne":{"projection":{"l":{"$slice":9223372036854775807}}}}
/v1/ks/c {"findOne":{"projection":{"l":{"$slice":-9223372036854775808}}}}
/v1/ks/c {"findOne":{"projection":{"l":{"$slice":[-9223372036854775808,9223372036854775807]}}}}
/v1/ks/c {"findOne":{"projection":{"l":{"$slice":[9223372036854775807,9223372036854775807]}}}}
/v1/ks/c {"findOne":{"projection":{"a":{"$slice":1}}}}
/v1/ks/c {"findOne":{"projection":{"a.b":{"$slice":1}}}}
/v1/ks/c {"findOne":{"projection":{"_id":0,"a.b":{"$slice":-1},"l":1}}}
=> 0
{"status":{"insertedIds":["p"]}}
{"data":{"document":{"_id":"p","a":{"b":1},"l":[2,3]}}}
{"data":{"document":{"a":{"c":2},"l":[1,2,3]}}}
{"errors":[{"message":"Projection is invalid at l","errorCode":"UNSUPPORTED_PROJECTION_PARAM"}]}
{"data":{"document":{"_id":"p","a":{"b":1,"c":2},"l":[1,2,3]}}}
{"data":{"document":{"_id":"p"}}}
{"data":{"document":{"_id":"p"}}}
{"data":{"document":{"a":{"b":1,"c":2},"l":[1,2,3]}}}
{"data":{"document":{"a":{"b":1,"c":2}}}}
{"data":{"document":{"_id":"p","l":[1,2,3]}}}
{"data":{"document":{}}}
{"data":{"document":{}}}
{"data":{"document":{"_id":"p"}}}
{"data":{"document":{"_id":"p","a":{"b":1,"c":2},"l":[1,2,3]}}}
{"data":{"document":{"_id":"p","a":{"b":1,"c":2}}}}
{"data":{"document":{"_id":"p","a":{"b":1,"c":2},"l":[1,2,3]}}}
{"data":{"document":{"_id":"p","l":[1,2,3]}}}
{"data":{"document":{"_id":"p","a":{"c":2},"l":[1,2,3]}}}
{"data":{"document":{"_id":"p","a":{"c":2},"l":[1,2,3]}}}
{"data":{"document":{"_id":"p","a":{}}}}
{"data":{"document":{"_id":"p","a":{"b":1,"c":2},"l":[1,2,3]}}}
{"data":{"document":{"_id":"p","a":{}}}}
{"data":{"document":{"_id":"p","a":{"b":1,"c":2},"l":[1,2,3]}}}
{"data":{"document":{"_id":"p"}}}
{"data":{"document":{"_id":"p","a":{"b":1,"c":2},"l":[1,2,3]}}}
{"data":{"document":{"_id":"p","a":{"b":1,"c":2}}}}
{"data":{"document":{"_id":"p","a":{},"l":[1,2,3]}}}
{"data":{"document":{"_id":"p","a":{"b":1,"c":2},"l":[1]}}}
{"data":{"document":{"_id":"p","a":{"b":1,"c":2},"l":[1]}}}
{"data":{"document":{"a":{"b":1,"c":2},"l":[1]}}}
{"data":{"document":{"_id":"p","l":[1]}}}
{"data":{"document":{"_id":"p","a":{"b":1,"c":2},"l":[1]}}}
{"data":{"document":{"_id":"p","a":{"b":1,"c":2},"l":[]}}}
{"data":{"document":{"_id":"p","a":{"b":1,"c":2},"l":[1,2]}}}
{"data":{"document":{"_id":"p","a":{"b":1,"c":2},"l":[1,2,3]}}}
{"data":{"document":{"_id":"p","a":{"b":1,"c":2},"l":[3]}}}
{"data":{"document":{"_id":"p","a":{"b":1,"c":2},"l":[1,2,3]}}}
{"data":{"document":{"_id":"p","a":{"b":1,"c":2},"l":[2]}}}
{"data":{"document":{"_id":"p","a":{"b":1,"c":2},"l":[2,3]}}}
{"data":{"document":{"_id":"p","a":{"b":1,"c":2},"l":[]}}}
{"data":{"document":{"_id":"p","a":{"b":1,"c":2},"l":[]}}}
{"data":{"document":{"_id":"p","a":{"b":1,"c":2},"l":[2]}}}
{"data":{"document":{"_id":"p","a":{"b":1,"c":2},"l":[1,2]}}}
{"data":{"document":{"_id":"p","a":{"b":1,"c":2},"l":[3]}}}
{"data":{"document":{"_id":"p","a":{"b":1,"c":2},"l":[1,2,3]}}}
{"data":{"document":{"_id":"p","a":{"b":1,"c":2},"l":[1,2,3]}}}
{"data":{"document":{"_id":"p","a":{"b":1,"c":2},"l":[1,2,3]}}}
{"data":{"document":{"_id":"p","a":{"b":1,"c":2},"l":[]}}}
{"data":{"document":{"_id":"p","a":{"b":1,"c":2},"l":[1,2,3]}}}
{"data":{"document":{"_id":"p","a":{"b":1,"c":2},"l":[1,2,3]}}}
{"data":{"document":{"a":{"b":1},"l":[1,2,3]}}}
---
run --collection=c
/v1/ks/c {"insertOne":{"document":{"z":1,"_id":"q","m":{"n":{"o":[[1,2],[3,4],{"x":[5,6]}],"p":{}},"e":{}},"t":{"$date":7},"a":null}}}
/v1/ks/c {"insertOne":{"document":{"_id":"r","m":[{"n":1}],"z":"s"}}}
/v1/ks/c {"find":{"projection":{"m.n.o":{"$slice":1}}}}
/v1/ks/c {"find":{"projection":{"m.n.o":{"$slice":[1,2]},"z":1}}}
/v1/ks/c {"find":{"projection":{"m.n.p":1,"t":1}}}
/v1/ks/c {"find":{"projection":{"m.n.p":0,"m.e":0}}}
/v1/ks/c {"find":{"projection":{"m.n.p.x":1}}}
/v1/ks/c {"find":{"projection":{"m.n.p.x":0}}}
/v1/ks/c {"find":{"projection":{"m.n":1,"m.e":1,"a":1}}}
/v1/ks/c {"find":{"projection":{"a":1,"t":1,"z":1,"_id":1}}}
/v1/ks/c {"find":{"projection":{"m":0,"t":0}}}
/v1/ks/c {"find":{"projection":{"t.x":1}}}
/v1/ks/c {"find":{"projection":{"m.n":{"$slice":1},"z":0}}}
/v1/ks/c {"find":{"projection":{"_id":0,"m.e":1,"m.n.o":{"$slice":-1}}}}
=> 0
{"status":{"insertedIds":["q"]}}
{"status":{"insertedIds":["r"]}}
{"data":{"documents":[{"z":1,"_id":"q","m":{"n":{"o":[[1,2]],"p":{}},"e":{}},"t":{"$date":7},"a":null},{"_id":"r","m":[{"n":1}],"z":"s"}],"nextPageState":null}}
{"data":{"documents":[{"z":1,"_id":"q","m":{"n":{"o":[[3,4],{"x":[5,6]}]}}},{"_id":"r","z":"s"}],"nextPageState":null}}
{"data":{"documents":[{"_id":"q","m":{"n":{"p":{}}},"t":{"$date":7}},{"_id":"r"}],"nextPageState":null}}
{"data":{"documents":[{"z":1,"_id":"q","m":{"n":{"o":[[1,2],[3,4],{"x":[5,6]}]}},"t":{"$date":7},"a":null},{"_id":"r","m":[{"n":1}],"z":"s"}],"nextPageState":null}}
{"data":{"documents":[{"_id":"q","m":{"n":{"p":{}}}},{"_id":"r"}],"nextPageState":null}}
{"data":{"documents":[{"z":1,"_id":"q","m":{"n":{"o":[[1,2],[3,4],{"x":[5,6]}],"p":{}},"e":{}},"t":{"$date":7},"a":null},{"_id":"r","m":[{"n":1}],"z":"s"}],"nextPageState":null}}
{"data":{"documents":[{"_id":"q","m":{"n":{"o":[[1,2],[3,4],{"x":[5,6]}],"p":{}},"e":{}},"a":null},{"_id":"r"}],"nextPageState":null}}
{"data":{"documents":[{"z":1,"_id":"q","t":{"$date":7},"a":null},{"_id":"r","z":"s"}],"nextPageState":null}}
{"data":{"documents":[{"z":1,"_id":"q","a":null},{"_id":"r","z":"s"}],"nextPageState":null}}
{"data":{"documents":[{"_id":"q"},{"_id":"r"}],"nextPageState":null}}
{"data":{"documents":[{"_id":"q","m":{"n":{"o":[[1,2],[3,4],{"x":[5,6]}],"p":{}},"e":{}},"t":{"$date":7},"a":null},{"_id":"r","m":[{"n":1}]}],"nextPageState":null}}
{"data":{"documents":[{"m":{"n":{"o":[{"x":[5,6]}]},"e":{}}},{}],"nextPageState":null}}
---
run --collection=c
/v1/ks/c {"insertOne":{"document":{"_id":"order-1001","customer":{"name":"Ada Lovelace","city":"London"},"items":[{"sku":"A-1","qty":2,"price":19.99}],"placed":{"$date":1700000000000},"paid":false}}}
/v1/ks/c {"updateOne":{"filter":{"_id":"order-1001"},"update":{"$inc":{"items.0.qty":1},"$set":{"paid":true}}}}
/v1/ks/c {"find":{"filter":{"customer.city":"London","items.0.qty":{"$gte":2},"placed":{"$gt":{"$date":1690000000000}}},"projection":{"items":1,"paid":1}}}
/v1/ks/c {"find":{"filter":{"customer.city":"Paris"},"projection":{"items":1,"paid":1}}}
=> 0
{"status":{"insertedIds":["order-1001"]}}
{"status":{"matchedCount":1,"modifiedCount":1}}
{"data":{"documents":[{"_id":"order-1001","items":[{"sku":"A-1","qty":3,"price":19.99}],"paid":true}],"nextPageState":null}}
{"data":{"documents":[],"nextPageState":null}}
---
"#;

// Projections and sorts that are none.
pub(super) const FAULTS: &str = r#"run --collection=c
/v1/ks/c {"insertOne":{"document":{"_id":"a"}}}
/v1/ks/c {"find":{"projection":{"a":2}}}
/v1/ks/c {"find":{"projection":{"a":-1}}}
/v1/ks/c {"find":{"projection":{"a":0.5}}}
/v1/ks/c {"find":{"projection":{"a":"1"}}}
/v1/ks/c {"find":{"projection":{"a":null}}}
/v1/ks/c {"find":{"projection":{"a":[]}}}
/v1/ks/c {"find":{"projection":{"a":{}}}}
/v1/ks/c {"find":{"projection":{"a":{"$date":1}}}}
/v1/ks/c {"find":{"projection":{"a":{"$size":1}}}}
/v1/ks/c {"find":{"projection":{"a":{"$slice":1,"x":1}}}}
/v1/ks/c {"find":{"projection":{"a":{"b":1}}}}
/v1/ks/c {"find":{"projection":{"a":{"$slice":1.5}}}}
/v1/ks/c {"find":{"projection":{"a":{"$slice":"1"}}}}
/v1/ks/c {"find":{"projection":{"a":{"$slice":9223372036854775808}}}}
/v1/ks/c {"find":{"projection":{"a":{"$slice":-9223372036854775809}}}}
/v1/ks/c {"find":{"projection":{"a":{"$slice":[]}}}}
/v1/ks/c {"find":{"projection":{"a":{"$slice":[1]}}}}
/v1/ks/c {"find":{"projection":{"a":{"$slice":[1,2,3]}}}}
/v1/ks/c {"find":{"projection":{"a":{"$slice":[1,0]}}}}
/v1/ks/c {"find":{"projection":{"a":{"$slice":[1,-1]}}}}
/v1/ks/c {"find":{"projection":{"a":{"$slice":[1.5,1]}}}}
/v1/ks/c {"find":{"projection":{"a":{"$slice":[1,9223372036854775808]}}}}
/v1/ks/c {"find":{"projection":{"a":{"$slice":[null,1]}}}}
/v1/ks/c {"find":{"projection":{"":1}}}
/v1/ks/c {"find":{"projection":{"a..b":1}}}
/v1/ks/c {"find":{"projection":{"a b":1}}}
/v1/ks/c {"find":{"projection":{"$a":1}}}
/v1/ks/c {"find":{"projection":{"*":1}}}
/v1/ks/c {"find":{"projection":{"xxxxxxxxxxxxxxxxxxxxxxxxxxxxxxxxxxxxxxxxxxxxxxxxxxxxxxxxxxxxxxxxxxxxxxxxxxxxxxxxxxxxxxxxxxxxxxxxxxxxx":1}}}
/v1/ks/c {"find":{"projection":{"a":1,"a.b":1}}}
/v1/ks/c {"find":{"projection":{"a.b":1,"a":1}}}
/v1/ks/c {"find":{"projection":{"a.b":1,"a.b.c":1}}}
/v1/ks/c {"find":{"projection":{"a.b":1,"a.bc":1,"a-b":1}}}
/v1/ks/c {"find":{"projection":{"a":1,"a":1}}}
/v1/ks/c {"find":{"projection":{"_id.x":1}}}
/v1/ks/c {"find":{"projection":{"_id":1,"_id.x":1}}}
/v1/ks/c {"find":{"projection":{"_id":{"$slice":1}}}}
/v1/ks/c {"find":{"projection":{"a":1,"b":0}}}
/v1/ks/c {"find":{"projection":{"a":0,"b":1}}}
/v1/ks/c {"find":{"projection":{"a":{"$slice":1},"b":0,"c":1}}}
/v1/ks/c {"find":{"projection":{"a":1,"_id":0,"b":false}}}
/v1/ks/c {"find":{"projection":{"x":3,"a.b":1,"a":1}}}
/v1/ks/c {"find":{"projection":{"a.b":1,"x":3,"a":1}}}
/v1/ks/c {"find":{"sort":{"a":0}}}
/v1/ks/c {"find":{"sort":{"a":2}}}
/v1/ks/c {"find":{"sort":{"a":-2}}}
/v1/ks/c {"find":{"sort":{"a":1.5}}}
/v1/ks/c {"find":{"sort":{"a":"1"}}}
/v1/ks/c {"find":{"sort":{"a":true}}}
/v1/ks/c {"find":{"sort":{"a":null}}}
/v1/ks/c {"find":{"sort":{"a":[1]}}}
/v1/ks/c {"find":{"sort":{"a":{"$date":1}}}}
/v1/ks/c {"find":{"sort":{"":1}}}
/v1/ks/c {"find":{"sort":{"a..b":1}}}
/v1/ks/c {"find":{"sort":{"a b":1}}}
/v1/ks/c {"find":{"sort":{"$a":1}}}
/v1/ks/c {"find":{"sort":{"xxxxxxxxxxxxxxxxxxxxxxxxxxxxxxxxxxxxxxxxxxxxxxxxxxxxxxxxxxxxxxxxxxxxxxxxxxxxxxxxxxxxxxxxxxxxxxxxxxxxx":1}}}
/v1/ks/c {"find":{"sort":{"a":1,"b":0,"c d":1}}}
/v1/ks/c {"find":{"sort":{"a":1,"a.b":1,"a":-1}}}
/v1/ks/c {"find":{"sort":{"a":-1.0}}}
/v1/ks/c {"find":{"sort":{"a":1,"b":1,"c":1,"d":1,"e":1,"f":1,"g":1,"h":-1}}}
/v1/ks/c {"find":{"sort":{"a":1,"b":1,"c":1,"d":1,"e":1,"f":1,"g":1,"h":1,"i":1}}}
/v1/ks/c {"find":{"sort":{"a":1,"b":1,"c":1,"d":1,"e":1,"f":1,"g":1,"h":0,"i j":1,"k":1}}}
/v1/ks/c {"find":{"sort":{"a":1,"a":1,"b":1,"c":1,"d":1,"e":1,"f":1,"g":1,"h":-1}}}
=> 0
{"status":{"insertedIds":["a"]}}
{"errors":[{"message":"Projection is invalid at a","errorCode":"UNSUPPORTED_PROJECTION_PARAM"}]}
{"errors":[{"message":"Projection is invalid at a","errorCode":"UNSUPPORTED_PROJECTION_PARAM"}]}
{"errors":[{"message":"Projection is invalid at a","errorCode":"UNSUPPORTED_PROJECTION_PARAM"}]}
{"errors":[{"message":"Projection is invalid at a","errorCode":"UNSUPPORTED_PROJECTION_PARAM"}]}
{"errors":[{"message":"Projection is invalid at a","errorCode":"UNSUPPORTED_PROJECTION_PARAM"}]}
{"errors":[{"message":"Projection is invalid at a","errorCode":"UNSUPPORTED_PROJECTION_PARAM"}]}
{"errors":[{"message":"Projection is invalid at a","errorCode":"UNSUPPORTED_PROJECTION_PARAM"}]}
{"errors":[{"message":"Projection is invalid at a","errorCode":"UNSUPPORTED_PROJECTION_PARAM"}]}
{"errors":[{"message":"Projection is invalid at a","errorCode":"UNSUPPORTED_PROJECTION_PARAM"}]}
{"errors":[{"message":"Projection is invalid at a","errorCode":"UNSUPPORTED_PROJECTION_PARAM"}]}
{"errors":[{"message":"Projection is invalid at a","errorCode":"UNSUPPORTED_PROJECTION_PARAM"}]}
{"errors":[{"message":"Projection is invalid at a","errorCode":"UNSUPPORTED_PROJECTION_PARAM"}]}
{"errors":[{"message":"Projection is invalid at a","errorCode":"UNSUPPORTED_PROJECTION_PARAM"}]}
{"errors":[{"message":"Projection is invalid at a","errorCode":"UNSUPPORTED_PROJECTION_PARAM"}]}
{"errors":[{"message":"Projection is invalid at a","errorCode":"UNSUPPORTED_PROJECTION_PARAM"}]}
{"errors":[{"message":"Projection is invalid at a","errorCode":"UNSUPPORTED_PROJECTION_PARAM"}]}
{"errors":[{"message":"Projection is invalid at a","errorCode":"UNSUPPORTED_PROJECTION_PARAM"}]}
{"errors":[{"message":"Projection is invalid at a","errorCode":"UNSUPPORTED_PROJECTION_PARAM"}]}
{"errors":[{"message":"Projection is invalid at a","errorCode":"UNSUPPORTED_PROJECTION_PARAM"}]}
{"errors":[{"message":"Projection is invalid at a","errorCode":"UNSUPPORTED_PROJECTION_PARAM"}]}
{"errors":[{"message":"Projection is invalid at a","errorCode":"UNSUPPORTED_PROJECTION_PARAM"}]}
{"errors":[{"message":"Projection is invalid at a","errorCode":"UNSUPPORTED_PROJECTION_PARAM"}]}
{"errors":[{"message":"Projection is invalid at a","errorCode":"UNSUPPORTED_PROJECTION_PARAM"}]}
{"errors":[{"message":"Projection is invalid at ","errorCode":"UNSUPPORTED_PROJECTION_PARAM"}]}
{"errors":[{"message":"Projection is invalid at a..b","errorCode":"UNSUPPORTED_PROJECTION_PARAM"}]}
{"errors":[{"message":"Projection is invalid at a b","errorCode":"UNSUPPORTED_PROJECTION_PARAM"}]}
{"errors":[{"message":"Projection is invalid at $a","errorCode":"UNSUPPORTED_PROJECTION_PARAM"}]}
{"errors":[{"message":"Projection is invalid at *","errorCode":"UNSUPPORTED_PROJECTION_PARAM"}]}
{"errors":[{"message":"Projection is invalid at xxxxxxxxxxxxxxxxxxxxxxxxxxxxxxxxxxxxxxxxxxxxxxxxxxxxxxxxxxxxxxxxxxxxxxxxxxxxxxxxxxxxxxxxxxxxxxxxxxxxx","errorCode":"UNSUPPORTED_PROJECTION_PARAM"}]}
{"errors":[{"message":"Projection is invalid at a.b","errorCode":"UNSUPPORTED_PROJECTION_PARAM"}]}
{"errors":[{"message":"Projection is invalid at a","errorCode":"UNSUPPORTED_PROJECTION_PARAM"}]}
{"errors":[{"message":"Projection is invalid at a.b.c","errorCode":"UNSUPPORTED_PROJECTION_PARAM"}]}
{"data":{"documents":[{"_id":"a"}],"nextPageState":null}}
{"data":{"documents":[{"_id":"a"}],"nextPageState":null}}
{"errors":[{"message":"Projection is invalid at _id.x","errorCode":"UNSUPPORTED_PROJECTION_PARAM"}]}
{"errors":[{"message":"Projection is invalid at _id.x","errorCode":"UNSUPPORTED_PROJECTION_PARAM"}]}
{"errors":[{"message":"Projection is invalid at _id","errorCode":"UNSUPPORTED_PROJECTION_PARAM"}]}
{"errors":[{"message":"Projection is invalid at b","errorCode":"UNSUPPORTED_PROJECTION_PARAM"}]}
{"errors":[{"message":"Projection is invalid at b","errorCode":"UNSUPPORTED_PROJECTION_PARAM"}]}
{"errors":[{"message":"Projection is invalid at c","errorCode":"UNSUPPORTED_PROJECTION_PARAM"}]}
{"errors":[{"message":"Projection is invalid at b","errorCode":"UNSUPPORTED_PROJECTION_PARAM"}]}
{"errors":[{"message":"Projection is invalid at x","errorCode":"UNSUPPORTED_PROJECTION_PARAM"}]}
{"errors":[{"message":"Projection is invalid at x","errorCode":"UNSUPPORTED_PROJECTION_PARAM"}]}
{"errors":[{"message":"Sort is invalid at a","errorCode":"INVALID_SORT_CLAUSE"}]}
{"errors":[{"message":"Sort is invalid at a","errorCode":"INVALID_SORT_CLAUSE"}]}
{"errors":[{"message":"Sort is invalid at a","errorCode":"INVALID_SORT_CLAUSE"}]}
{"errors":[{"message":"Sort is invalid at a","errorCode":"INVALID_SORT_CLAUSE"}]}
{"errors":[{"message":"Sort is invalid at a","errorCode":"INVALID_SORT_CLAUSE"}]}
{"errors":[{"message":"Sort is invalid at a","errorCode":"INVALID_SORT_CLAUSE"}]}
{"errors":[{"message":"Sort is invalid at a","errorCode":"INVALID_SORT_CLAUSE"}]}
{"errors":[{"message":"Sort is invalid at a","errorCode":"INVALID_SORT_CLAUSE"}]}
{"errors":[{"message":"Sort is invalid at a","errorCode":"INVALID_SORT_CLAUSE"}]}
{"errors":[{"message":"Sort is invalid at ","errorCode":"INVALID_SORT_CLAUSE"}]}
{"errors":[{"message":"Sort is invalid at a..b","errorCode":"INVALID_SORT_CLAUSE"}]}
{"errors":[{"message":"Sort is invalid at a b","errorCode":"INVALID_SORT_CLAUSE"}]}
{"errors":[{"message":"Sort is invalid at $a","errorCode":"INVALID_SORT_CLAUSE"}]}
{"errors":[{"message":"Sort is invalid at xxxxxxxxxxxxxxxxxxxxxxxxxxxxxxxxxxxxxxxxxxxxxxxxxxxxxxxxxxxxxxxxxxxxxxxxxxxxxxxxxxxxxxxxxxxxxxxxxxxxx","errorCode":"INVALID_SORT_CLAUSE"}]}
{"errors":[{"message":"Sort is invalid at b","errorCode":"INVALID_SORT_CLAUSE"}]}
{"data":{"documents":[{"_id":"a"}],"nextPageState":null}}
{"data":{"documents":[{"_id":"a"}],"nextPageState":null}}
{"data":{"documents":[{"_id":"a"}],"nextPageState":null}}
{"errors":[{"message":"Command limit sort is 8, found 9","errorCode":"COMMAND_LIMIT_VIOLATION"}]}
{"errors":[{"message":"Command limit sort is 8, found 10","errorCode":"COMMAND_LIMIT_VIOLATION"}]}
{"data":{"documents":[{"_id":"a"}],"nextPageState":null}}
---
"#;

// Which of several faults is told.
pub(super) const ORDER: &str = r#"run --collection=c
/v1/ks/c {"insertOne":{"document":{"_id":"a","s":"x"}}}
/v1/ks/c {"find":{"sort":{"a":1,"b":1,"c":1,"d":1,"e":1,"f":1,"g":1,"h":1,"i":1},"options":{"skip":481}}}
/v1/ks/c {"find":{"sort":{"a":1,"b":1,"c":1,"d":1,"e":1,"f":1,"g":1,"h":1,"i":1},"projection":{"a":2},"filter":{"a b":1}}}
/v1/ks/c {"find":{"sort":{"a":2},"projection":{"a":2},"filter":{"a b":1}}}
/v1/ks/c {"find":{"sort":{"a":2},"projection":{"b":2}}}
/v1/ks/c {"find":{"sort":{"a":2},"filter":{"a":{"$near":1}}}}
/v1/ks/c {"find":{"projection":{"b":2},"options":{"pageState":"AA=="}}}
/v1/ks/c {"find":{"filter":{"a b":1},"options":{"pageState":"AA=="}}}
/v1/ks/c {"find":{"sort":{"a":2},"options":{"pageState":"AA=="}}}
/v1/ks/c {"find":{"sort":{"a":1,"b":1,"c":1,"d":1,"e":1,"f":1,"g":1,"h":1,"i":1},"options":{"pageState":"AA=="}}}
/v1/ks/c {"find":{"sort":{"a":1,"b":1,"c":1,"d":1,"e":1,"f":1,"g":1,"h":1,"i":1},"options":{"limit":-1}}}
/v1/ks/c {"find":{"sort":{"a":1,"b":1,"c":1,"d":1,"e":1,"f":1,"g":1,"h":1,"i":1},"x":1}}
/v1/ks/c {"findOne":{"options":{}}}
/v1/ks/c {"findOne":{"sort":{"a":1},"options":{"skip":1}}}
/v1/ks/c {"findOne":{"sort":{"a":1,"b":1,"c":1,"d":1,"e":1,"f":1,"g":1,"h":1,"i":1}}}
/v1/ks/c {"findOne":{"sort":{"a":2}}}
/v1/ks/c {"findOne":{"projection":{"a":2}}}
/v1/ks/c {"findOne":{"projection":{"a":2},"sort":{"a":2}}}
/v1/ks/c {"findOne":{"projection":{"a":2},"sort":{"a":2},"filter":{"a b":1}}}
/v1/ks/c {"findOne":{"projection":1}}
/v1/ks/c {"findOne":{"sort":1}}
/v1/ks/c {"findOne":{"limit":1}}
/v1/ks/c {"findOne":{"pageState":"AA=="}}
/v1/ks/c {"updateOne":{"sort":{"s":2},"update":{"$set":{"s":1}}}}
/v1/ks/c {"updateOne":{"sort":{"s":2},"update":{"$inc":{"s":"x"}}}}
/v1/ks/c {"updateOne":{"sort":{"a":1,"b":1,"c":1,"d":1,"e":1,"f":1,"g":1,"h":1,"i":1},"update":{"$inc":{"s":"x"}}}}
/v1/ks/c {"updateOne":{"sort":{"s":2},"update":{"$set":{"_id":1}}}}
/v1/ks/c {"updateOne":{"sort":{"s":1}}}
/v1/ks/c {"updateOne":{"sort":1,"update":1}}
/v1/ks/c {"updateOne":{"projection":{},"update":{"$set":{"s":1}}}}
/v1/ks/c {"updateOne":{"sort":{"s":2},"filter":{"s":{"$gt":null}},"update":{"s":1}}}
/v1/ks/c {"updateOne":{"sort":{"s":1},"update":{"$inc":{"s":1}}}}
/v1/ks/c {"updateOne":{"sort":{"s":1},"update":{"$set":{"s":1}},"options":{"skip":1}}}
/v1/ks/c {"countDocuments":{"sort":{}}}
/v1/ks/c {"countDocuments":{"projection":{}}}
/v1/ks/c {"insertOne":{"document":{"_id":1},"sort":{}}}
/v1/ks/zz {"findOne":{"sort":{"a":2}}}
/v1/ks/zz {"findOne":{"sort":{"a":1},"projection":{"a":1}}}
/v1/ks/zz {"updateOne":{"sort":{"a":1},"update":{"$set":{"a":1}}}}
/v1/ks/c {"findOne":{}}
=> 0
{"status":{"insertedIds":["a"]}}
{"errors":[{"message":"Command limit skip is 480, found 481","errorCode":"COMMAND_LIMIT_VIOLATION"}]}
{"errors":[{"message":"Command limit sort is 8, found 9","errorCode":"COMMAND_LIMIT_VIOLATION"}]}
{"errors":[{"message":"Filter is invalid at a b","errorCode":"INVALID_FILTER_EXPRESSION"}]}
{"errors":[{"message":"Projection is invalid at b","errorCode":"UNSUPPORTED_PROJECTION_PARAM"}]}
{"errors":[{"message":"Filter operator $near is not supported","errorCode":"UNSUPPORTED_FILTER_OPERATION"}]}
{"errors":[{"message":"Projection is invalid at b","errorCode":"UNSUPPORTED_PROJECTION_PARAM"}]}
{"errors":[{"message":"Filter is invalid at a b","errorCode":"INVALID_FILTER_EXPRESSION"}]}
{"errors":[{"message":"Command field invalid: options.pageState","errorCode":"COMMAND_FIELD_INVALID"}]}
{"errors":[{"message":"Command field invalid: options.pageState","errorCode":"COMMAND_FIELD_INVALID"}]}
{"errors":[{"message":"Command field invalid: options.limit","errorCode":"COMMAND_FIELD_INVALID"}]}
{"errors":[{"message":"Command field invalid: x","errorCode":"COMMAND_FIELD_INVALID"}]}
{"errors":[{"message":"Command field invalid: options","errorCode":"COMMAND_FIELD_INVALID"}]}
{"errors":[{"message":"Command field invalid: options","errorCode":"COMMAND_FIELD_INVALID"}]}
{"errors":[{"message":"Command limit sort is 8, found 9","errorCode":"COMMAND_LIMIT_VIOLATION"}]}
{"errors":[{"message":"Sort is invalid at a","errorCode":"INVALID_SORT_CLAUSE"}]}
{"errors":[{"message":"Projection is invalid at a","errorCode":"UNSUPPORTED_PROJECTION_PARAM"}]}
{"errors":[{"message":"Projection is invalid at a","errorCode":"UNSUPPORTED_PROJECTION_PARAM"}]}
{"errors":[{"message":"Filter is invalid at a b","errorCode":"INVALID_FILTER_EXPRESSION"}]}
{"errors":[{"message":"Command field invalid: projection","errorCode":"COMMAND_FIELD_INVALID"}]}
{"errors":[{"message":"Command field invalid: sort","errorCode":"COMMAND_FIELD_INVALID"}]}
{"errors":[{"message":"Command field invalid: limit","errorCode":"COMMAND_FIELD_INVALID"}]}
{"errors":[{"message":"Command field invalid: pageState","errorCode":"COMMAND_FIELD_INVALID"}]}
{"errors":[{"message":"Sort is invalid at s","errorCode":"INVALID_SORT_CLAUSE"}]}
{"errors":[{"message":"Update operand is invalid for $inc at s","errorCode":"UNSUPPORTED_UPDATE_OPERATION_PARAM"}]}
{"errors":[{"message":"Command limit sort is 8, found 9","errorCode":"COMMAND_LIMIT_VIOLATION"}]}
{"errors":[{"message":"Field _id is not changeable","errorCode":"UNSUPPORTED_UPDATE_FOR_DOC_ID"}]}
{"errors":[{"message":"Command field invalid: update","errorCode":"COMMAND_FIELD_INVALID"}]}
{"errors":[{"message":"Command field invalid: sort","errorCode":"COMMAND_FIELD_INVALID"}]}
{"errors":[{"message":"Command field invalid: projection","errorCode":"COMMAND_FIELD_INVALID"}]}
{"errors":[{"message":"Filter is invalid at s","errorCode":"INVALID_FILTER_EXPRESSION"}]}
{"errors":[{"message":"Update target is of the wrong kind at s","errorCode":"UNSUPPORTED_UPDATE_OPERATION_TARGET"}]}
{"errors":[{"message":"Command field invalid: options.skip","errorCode":"COMMAND_FIELD_INVALID"}]}
{"errors":[{"message":"Command field invalid: sort","errorCode":"COMMAND_FIELD_INVALID"}]}
{"errors":[{"message":"Command field invalid: projection","errorCode":"COMMAND_FIELD_INVALID"}]}
{"errors":[{"message":"Command field invalid: sort","errorCode":"COMMAND_FIELD_INVALID"}]}
{"errors":[{"message":"Sort is invalid at a","errorCode":"INVALID_SORT_CLAUSE"}]}
{"errors":[{"message":"Collection zz does not exist","errorCode":"COLLECTION_NOT_EXIST"}]}
{"errors":[{"message":"Collection zz does not exist","errorCode":"COLLECTION_NOT_EXIST"}]}
{"data":{"document":{"_id":"a","s":"x"}}}
---
"#;

// Searches of ten thousand documents, which are sorted, and of one more.
pub(super) const SORTABLE: &str =
    r#"/v1/ks/c {"find":{"sort":{"k":-1},"options":{"limit":3},"projection":{"_id":1}}}
/v1/ks/c {"find":{"sort":{"zz":-1},"options":{"skip":2,"limit":1}}}
/v1/ks/c {"findOne":{"sort":{"k":-1},"projection":{"k":1,"_id":0}}}
/v1/ks/c {"updateOne":{"sort":{"k":-1},"update":{"$set":{"k":-1}}}}
/v1/ks/c {"findOne":{"filter":{"k":-1}}}
/v1/ks/c {"findOneAndUpdate":{"sort":{"k":-1},"update":{"$inc":{"k":0}},"projection":{"k":1}}}
"#;

pub(super) const SORTED: &str =
    r#"{"data":{"documents":[{"_id":9999},{"_id":9998},{"_id":9997}],"nextPageState":null}}
{"data":{"documents":[{"_id":2,"k":2}],"nextPageState":null}}
{"data":{"document":{"k":9999}}}
{"status":{"matchedCount":1,"modifiedCount":1}}
{"data":{"document":{"_id":9999,"k":-1}}}
{"data":{"document":{"_id":9998,"k":9998}},"status":{"matchedCount":1,"modifiedCount":0}}
"#;

pub(super) const UNSORTABLE: &str = r#"/v1/ks/c {"find":{"sort":{"k":-1}}}
/v1/ks/c {"findOne":{"sort":{"k":-1}}}
/v1/ks/c {"updateOne":{"sort":{"k":-1},"update":{"$set":{"k":-1}}}}
/v1/ks/c {"deleteOne":{"sort":{"k":-1}}}
/v1/ks/c {"findOneAndUpdate":{"sort":{"k":-1},"update":{"$set":{"k":-1}},"options":{"upsert":true}}}
/v1/ks/c {"findOneAndReplace":{"sort":{"k":-1},"replacement":{"_id":-1}}}
/v1/ks/c {"findOneAndDelete":{"sort":{"k":-1}}}
/v1/ks/c {"find":{"filter":{"k":{"$gte":0}},"sort":{"k":-1},"options":{"limit":2}}}
/v1/ks/c {"find":{"options":{"limit":1}}}
/v1/ks/c {"findOne":{}}
"#;

pub(super) const REFUSED: &str =
    r#"{"errors":[{"message":"More than 10000 documents to sort","errorCode":"DATASET_TOO_BIG"}]}
{"errors":[{"message":"More than 10000 documents to sort","errorCode":"DATASET_TOO_BIG"}]}
{"errors":[{"message":"More than 10000 documents to sort","errorCode":"DATASET_TOO_BIG"}]}
{"errors":[{"message":"More than 10000 documents to sort","errorCode":"DATASET_TOO_BIG"}]}
{"errors":[{"message":"More than 10000 documents to sort","errorCode":"DATASET_TOO_BIG"}]}
{"errors":[{"message":"More than 10000 documents to sort","errorCode":"DATASET_TOO_BIG"}]}
{"errors":[{"message":"More than 10000 documents to sort","errorCode":"DATASET_TOO_BIG"}]}
{"data":{"documents":[{"_id":10000,"k":10000},{"_id":9998,"k":9998}],"nextPageState":null}}
{"data":{"documents":[{"_id":0,"k":0}],"nextPageState":null}}
{"data":{"document":{"_id":0,"k":0}}}
"#;
