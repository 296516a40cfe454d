// Rows of pages, in the form of the other rows.

// A page of 20 and the next one; limits over several pages, and where they are reached; states from elsewhere.
pub(super) const PAGES: &str = r#"run --collection=c
/v1/ks/c {"insertOne":{"document":{"_id":"d00"}}}
/v1/ks/c {"insertOne":{"document":{"_id":"d01"}}}
/v1/ks/c {"insertOne":{"document":{"_id":"d02"}}}
/v1/ks/c {"insertOne":{"document":{"_id":"d03"}}}
/v1/ks/c {"insertOne":{"document":{"_id":"d04"}}}
/v1/ks/c {"insertOne":{"document":{"_id":"d05"}}}
/v1/ks/c {"insertOne":{"document":{"_id":"d06"}}}
/v1/ks/c {"insertOne":{"document":{"_id":"d07"}}}
/v1/ks/c {"insertOne":{"document":{"_id":"d08"}}}
/v1/ks/c {"insertOne":{"document":{"_id":"d09"}}}
/v1/ks/c {"insertOne":{"document":{"_id":"d10"}}}
/v1/ks/c {"insertOne":{"document":{"_id":"d11"}}}
/v1/ks/c {"insertOne":{"document":{"_id":"d12"}}}
/v1/ks/c {"insertOne":{"document":{"_id":"d13"}}}
/v1/ks/c {"insertOne":{"document":{"_id":"d14"}}}
/v1/ks/c {"insertOne":{"document":{"_id":"d15"}}}
/v1/ks/c {"insertOne":{"document":{"_id":"d16"}}}
/v1/ks/c {"insertOne":{"document":{"_id":"d17"}}}
/v1/ks/c {"insertOne":{"document":{"_id":"d18"}}}
/v1/ks/c {"insertOne":{"document":{"_id":"d19"}}}
/v1/ks/c {"find":{}}
/v1/ks/c {"find":{"options":{"pageState":"AQAAAAAAAAAUAWQxOQ=="}}}
/v1/ks/c {"insertOne":{"document":{"_id":"d20"}}}
/v1/ks/c {"find":{}}
/v1/ks/c {"find":{"options":{"pageState":"AQAAAAAAAAAUAWQxOQ=="}}}
/v1/ks/c {"find":{"options":{"pageState":"AA=="}}}
/v1/ks/c {"find":{"sort":{},"options":{"pageState":null,"skip":0,"limit":0}}}
/v1/ks/c {"find":{"sort":{},"options":{"pageState":"AQAAAAAAAAAUAWQxOQ==","limit":21}}}
=> 0
{"status":{"insertedIds":["d00"]}}
{"status":{"insertedIds":["d01"]}}
{"status":{"insertedIds":["d02"]}}
{"status":{"insertedIds":["d03"]}}
{"status":{"insertedIds":["d04"]}}
{"status":{"insertedIds":["d05"]}}
{"status":{"insertedIds":["d06"]}}
{"status":{"insertedIds":["d07"]}}
{"status":{"insertedIds":["d08"]}}
{"status":{"insertedIds":["d09"]}}
{"status":{"insertedIds":["d10"]}}
{"status":{"insertedIds":["d11"]}}
{"status":{"insertedIds":["d12"]}}
{"status":{"insertedIds":["d13"]}}
{"status":{"insertedIds":["d14"]}}
{"status":{"insertedIds":["d15"]}}
{"status":{"insertedIds":["d16"]}}
{"status":{"insertedIds":["d17"]}}
{"status":{"insertedIds":["d18"]}}
{"status":{"insertedIds":["d19"]}}
{"data":{"documents":[{"_id":"d00"},{"_id":"d01"},{"_id":"d02"},{"_id":"d03"},{"_id":"d04"},{"_id":"d05"},{"_id":"d06"},{"_id":"d07"},{"_id":"d08"},{"_id":"d09"},{"_id":"d10"},{"_id":"d11"},{"_id":"d12"},{"_id":"d13"},{"_id":"d14"},{"_id":"d15"},{"_id":"d16"},{"_id":"d17"},{"_id":"d18"},{"_id":"d19"}],"nextPageState":"AQAAAAAAAAAUAWQxOQ=="}}
{"data":{"documents":[],"nextPageState":null}}
{"status":{"insertedIds":["d20"]}}
{"data":{"documents":[{"_id":"d00"},{"_id":"d01"},{"_id":"d02"},{"_id":"d03"},{"_id":"d04"},{"_id":"d05"},{"_id":"d06"},{"_id":"d07"},{"_id":"d08"},{"_id":"d09"},{"_id":"d10"},{"_id":"d11"},{"_id":"d12"},{"_id":"d13"},{"_id":"d14"},{"_id":"d15"},{"_id":"d16"},{"_id":"d17"},{"_id":"d18"},{"_id":"d19"}],"nextPageState":"AQAAAAAAAAAUAWQxOQ=="}}
{"data":{"documents":[{"_id":"d20"}],"nextPageState":null}}
{"errors":[{"message":"Page state is invalid","errorCode":"INVALID_PAGE_STATE"}]}
{"data":{"documents":[{"_id":"d00"},{"_id":"d01"},{"_id":"d02"},{"_id":"d03"},{"_id":"d04"},{"_id":"d05"},{"_id":"d06"},{"_id":"d07"},{"_id":"d08"},{"_id":"d09"},{"_id":"d10"},{"_id":"d11"},{"_id":"d12"},{"_id":"d13"},{"_id":"d14"},{"_id":"d15"},{"_id":"d16"},{"_id":"d17"},{"_id":"d18"},{"_id":"d19"}],"nextPageState":"AQAAAAAAAAAUAWQxOQ=="}}
{"data":{"documents":[{"_id":"d20"}],"nextPageState":null}}
---
run --collection=c
/v1/ks/c {"insertOne":{"document":{"_id":1}}}
/v1/ks/c {"insertOne":{"document":{"_id":2}}}
/v1/ks/c {"insertOne":{"document":{"_id":3}}}
/v1/ks/c {"insertOne":{"document":{"_id":4}}}
/v1/ks/c {"insertOne":{"document":{"_id":5}}}
/v1/ks/c {"insertOne":{"document":{"_id":6}}}
/v1/ks/c {"insertOne":{"document":{"_id":7}}}
/v1/ks/c {"insertOne":{"document":{"_id":8}}}
/v1/ks/c {"insertOne":{"document":{"_id":9}}}
/v1/ks/c {"insertOne":{"document":{"_id":10}}}
/v1/ks/c {"insertOne":{"document":{"_id":11}}}
/v1/ks/c {"insertOne":{"document":{"_id":12}}}
/v1/ks/c {"insertOne":{"document":{"_id":13}}}
/v1/ks/c {"insertOne":{"document":{"_id":14}}}
/v1/ks/c {"insertOne":{"document":{"_id":15}}}
/v1/ks/c {"insertOne":{"document":{"_id":16}}}
/v1/ks/c {"insertOne":{"document":{"_id":17}}}
/v1/ks/c {"insertOne":{"document":{"_id":18}}}
/v1/ks/c {"insertOne":{"document":{"_id":19}}}
/v1/ks/c {"insertOne":{"document":{"_id":20}}}
/v1/ks/c {"insertOne":{"document":{"_id":21}}}
/v1/ks/c {"insertOne":{"document":{"_id":22}}}
/v1/ks/c {"insertOne":{"document":{"_id":23}}}
/v1/ks/c {"insertOne":{"document":{"_id":24}}}
/v1/ks/c {"insertOne":{"document":{"_id":25}}}
/v1/ks/c {"insertOne":{"document":{"_id":26}}}
/v1/ks/c {"insertOne":{"document":{"_id":27}}}
/v1/ks/c {"insertOne":{"document":{"_id":28}}}
/v1/ks/c {"insertOne":{"document":{"_id":29}}}
/v1/ks/c {"insertOne":{"document":{"_id":30}}}
/v1/ks/c {"insertOne":{"document":{"_id":31}}}
/v1/ks/c {"insertOne":{"document":{"_id":32}}}
/v1/ks/c {"insertOne":{"document":{"_id":33}}}
/v1/ks/c {"insertOne":{"document":{"_id":34}}}
/v1/ks/c {"insertOne":{"document":{"_id":35}}}
/v1/ks/c {"insertOne":{"document":{"_id":36}}}
/v1/ks/c {"insertOne":{"document":{"_id":37}}}
/v1/ks/c {"insertOne":{"document":{"_id":38}}}
/v1/ks/c {"insertOne":{"document":{"_id":39}}}
/v1/ks/c {"insertOne":{"document":{"_id":40}}}
/v1/ks/c {"insertOne":{"document":{"_id":41}}}
/v1/ks/c {"find":{"projection":{"_id":1}}}
/v1/ks/c {"find":{"options":{"pageState":"AQAAAAAAAAAUAoAAAAAAAAABFY5GCRPQAAA="}}}
/v1/ks/c {"find":{"options":{"pageState":"AQAAAAAAAAAoAoAAAAAAAAACKxyMEiegAAA="}}}
/v1/ks/c {"find":{"options":{"limit":3}}}
/v1/ks/c {"find":{"options":{"limit":20}}}
/v1/ks/c {"find":{"options":{"limit":21}}}
/v1/ks/c {"find":{"options":{"limit":21,"pageState":"AQAAAAAAAAAUAoAAAAAAAAABFY5GCRPQAAA="}}}
/v1/ks/c {"find":{"options":{"limit":40}}}
/v1/ks/c {"find":{"options":{"limit":40,"pageState":"AQAAAAAAAAAUAoAAAAAAAAABFY5GCRPQAAA="}}}
/v1/ks/c {"find":{"options":{"limit":41,"pageState":"AQAAAAAAAAAUAoAAAAAAAAABFY5GCRPQAAA="}}}
/v1/ks/c {"find":{"options":{"limit":41,"pageState":"AQAAAAAAAAAoAoAAAAAAAAACKxyMEiegAAA="}}}
/v1/ks/c {"find":{"options":{"limit":25,"pageState":"AQAAAAAAAAAUAoAAAAAAAAABFY5GCRPQAAA="}}}
/v1/ks/c {"find":{"options":{"limit":20,"pageState":"AQAAAAAAAAAUAoAAAAAAAAABFY5GCRPQAAA="}}}
/v1/ks/c {"find":{"options":{"limit":7,"pageState":"AQAAAAAAAAAUAoAAAAAAAAABFY5GCRPQAAA="}}}
/v1/ks/c {"find":{"options":{"limit":2147483647,"pageState":"AX//////////AoAAAAAAAAAADeC2s6dkAAA="}}}
/v1/ks/c {"find":{"options":{"pageState":"AX//////////AoAAAAAAAAAADeC2s6dkAAA="}}}
/v1/ks/c {"find":{"options":{"pageState":"AX/////////sAoAAAAAAAAAADeC2s6dkAAA="}}}
/v1/ks/c {"find":{"options":{"pageState":"AX/////////rAoAAAAAAAAAADeC2s6dkAAA="}}}
/v1/ks/c {"find":{"options":{"limit":2147483647,"pageState":"AQAAAAB////qAoAAAAAAAAAADeC2s6dkAAA="}}}
/v1/ks/c {"find":{"options":{"limit":2147483647,"pageState":"AQAAAAB////rAoAAAAAAAAAADeC2s6dkAAA="}}}
/v1/ks/c {"find":{"options":{"limit":2147483647,"pageState":"AQAAAAB////sAoAAAAAAAAAADeC2s6dkAAA="}}}
/v1/ks/c {"find":{"filter":{"_id":{"$gte":38}},"options":{"pageState":"AQAAAAAAAAAUAoAAAAAAAAABFY5GCRPQAAA="}}}
/v1/ks/c {"find":{"filter":{"_id":{"$lt":5}},"options":{"pageState":"AQAAAAAAAAAUAoAAAAAAAAABFY5GCRPQAAA="}}}
/v1/ks/c {"find":{"filter":{"_id":{"$gte":40}},"options":{"pageState":"AQAAAAAAAAADAXp6"}}}
/v1/ks/c {"find":{"options":{"pageState":"AQAAAAAAAAAABA=="}}}
/v1/ks/c {"find":{"options":{"pageState":"AQAAAAAAAAABAoAAAAAAAAACKxyMEiegAAE="}}}
/v1/ks/c {"find":{"filter":{"_id":{"$in":[7,21,3]}},"options":{"limit":2}}}
=> 0
{"status":{"insertedIds":[1]}}
{"status":{"insertedIds":[2]}}
{"status":{"insertedIds":[3]}}
{"status":{"insertedIds":[4]}}
{"status":{"insertedIds":[5]}}
{"status":{"insertedIds":[6]}}
{"status":{"insertedIds":[7]}}
{"status":{"insertedIds":[8]}}
{"status":{"insertedIds":[9]}}
{"status":{"insertedIds":[10]}}
{"status":{"insertedIds":[11]}}
{"status":{"insertedIds":[12]}}
{"status":{"insertedIds":[13]}}
{"status":{"insertedIds":[14]}}
{"status":{"insertedIds":[15]}}
{"status":{"insertedIds":[16]}}
{"status":{"insertedIds":[17]}}
{"status":{"insertedIds":[18]}}
{"status":{"insertedIds":[19]}}
{"status":{"insertedIds":[20]}}
{"status":{"insertedIds":[21]}}
{"status":{"insertedIds":[22]}}
{"status":{"insertedIds":[23]}}
{"status":{"insertedIds":[24]}}
{"status":{"insertedIds":[25]}}
{"status":{"insertedIds":[26]}}
{"status":{"insertedIds":[27]}}
{"status":{"insertedIds":[28]}}
{"status":{"insertedIds":[29]}}
{"status":{"insertedIds":[30]}}
{"status":{"insertedIds":[31]}}
{"status":{"insertedIds":[32]}}
{"status":{"insertedIds":[33]}}
{"status":{"insertedIds":[34]}}
{"status":{"insertedIds":[35]}}
{"status":{"insertedIds":[36]}}
{"status":{"insertedIds":[37]}}
{"status":{"insertedIds":[38]}}
{"status":{"insertedIds":[39]}}
{"status":{"insertedIds":[40]}}
{"status":{"insertedIds":[41]}}
{"data":{"documents":[{"_id":1},{"_id":2},{"_id":3},{"_id":4},{"_id":5},{"_id":6},{"_id":7},{"_id":8},{"_id":9},{"_id":10},{"_id":11},{"_id":12},{"_id":13},{"_id":14},{"_id":15},{"_id":16},{"_id":17},{"_id":18},{"_id":19},{"_id":20}],"nextPageState":"AQAAAAAAAAAUAoAAAAAAAAABFY5GCRPQAAA="}}
{"data":{"documents":[{"_id":21},{"_id":22},{"_id":23},{"_id":24},{"_id":25},{"_id":26},{"_id":27},{"_id":28},{"_id":29},{"_id":30},{"_id":31},{"_id":32},{"_id":33},{"_id":34},{"_id":35},{"_id":36},{"_id":37},{"_id":38},{"_id":39},{"_id":40}],"nextPageState":"AQAAAAAAAAAoAoAAAAAAAAACKxyMEiegAAA="}}
{"data":{"documents":[{"_id":41}],"nextPageState":null}}
{"data":{"documents":[{"_id":1},{"_id":2},{"_id":3}],"nextPageState":null}}
{"data":{"documents":[{"_id":1},{"_id":2},{"_id":3},{"_id":4},{"_id":5},{"_id":6},{"_id":7},{"_id":8},{"_id":9},{"_id":10},{"_id":11},{"_id":12},{"_id":13},{"_id":14},{"_id":15},{"_id":16},{"_id":17},{"_id":18},{"_id":19},{"_id":20}],"nextPageState":null}}
{"data":{"documents":[{"_id":1},{"_id":2},{"_id":3},{"_id":4},{"_id":5},{"_id":6},{"_id":7},{"_id":8},{"_id":9},{"_id":10},{"_id":11},{"_id":12},{"_id":13},{"_id":14},{"_id":15},{"_id":16},{"_id":17},{"_id":18},{"_id":19},{"_id":20}],"nextPageState":"AQAAAAAAAAAUAoAAAAAAAAABFY5GCRPQAAA="}}
{"data":{"documents":[{"_id":21}],"nextPageState":null}}
{"data":{"documents":[{"_id":1},{"_id":2},{"_id":3},{"_id":4},{"_id":5},{"_id":6},{"_id":7},{"_id":8},{"_id":9},{"_id":10},{"_id":11},{"_id":12},{"_id":13},{"_id":14},{"_id":15},{"_id":16},{"_id":17},{"_id":18},{"_id":19},{"_id":20}],"nextPageState":"AQAAAAAAAAAUAoAAAAAAAAABFY5GCRPQAAA="}}
{"data":{"documents":[{"_id":21},{"_id":22},{"_id":23},{"_id":24},{"_id":25},{"_id":26},{"_id":27},{"_id":28},{"_id":29},{"_id":30},{"_id":31},{"_id":32},{"_id":33},{"_id":34},{"_id":35},{"_id":36},{"_id":37},{"_id":38},{"_id":39},{"_id":40}],"nextPageState":null}}
{"data":{"documents":[{"_id":21},{"_id":22},{"_id":23},{"_id":24},{"_id":25},{"_id":26},{"_id":27},{"_id":28},{"_id":29},{"_id":30},{"_id":31},{"_id":32},{"_id":33},{"_id":34},{"_id":35},{"_id":36},{"_id":37},{"_id":38},{"_id":39},{"_id":40}],"nextPageState":"AQAAAAAAAAAoAoAAAAAAAAACKxyMEiegAAA="}}
{"data":{"documents":[{"_id":41}],"nextPageState":null}}
{"data":{"documents":[{"_id":21},{"_id":22},{"_id":23},{"_id":24},{"_id":25}],"nextPageState":null}}
{"data":{"documents":[],"nextPageState":null}}
{"data":{"documents":[],"nextPageState":null}}
{"data":{"documents":[],"nextPageState":null}}
{"data":{"documents":[{"_id":2},{"_id":3},{"_id":4},{"_id":5},{"_id":6},{"_id":7},{"_id":8},{"_id":9},{"_id":10},{"_id":11},{"_id":12},{"_id":13},{"_id":14},{"_id":15},{"_id":16},{"_id":17},{"_id":18},{"_id":19},{"_id":20},{"_id":21}],"nextPageState":"AX//////////AoAAAAAAAAABI278vLs0AAA="}}
{"data":{"documents":[{"_id":2},{"_id":3},{"_id":4},{"_id":5},{"_id":6},{"_id":7},{"_id":8},{"_id":9},{"_id":10},{"_id":11},{"_id":12},{"_id":13},{"_id":14},{"_id":15},{"_id":16},{"_id":17},{"_id":18},{"_id":19},{"_id":20},{"_id":21}],"nextPageState":"AX//////////AoAAAAAAAAABI278vLs0AAA="}}
{"data":{"documents":[{"_id":2},{"_id":3},{"_id":4},{"_id":5},{"_id":6},{"_id":7},{"_id":8},{"_id":9},{"_id":10},{"_id":11},{"_id":12},{"_id":13},{"_id":14},{"_id":15},{"_id":16},{"_id":17},{"_id":18},{"_id":19},{"_id":20},{"_id":21}],"nextPageState":"AX//////////AoAAAAAAAAABI278vLs0AAA="}}
{"data":{"documents":[{"_id":2},{"_id":3},{"_id":4},{"_id":5},{"_id":6},{"_id":7},{"_id":8},{"_id":9},{"_id":10},{"_id":11},{"_id":12},{"_id":13},{"_id":14},{"_id":15},{"_id":16},{"_id":17},{"_id":18},{"_id":19},{"_id":20},{"_id":21}],"nextPageState":"AQAAAAB////+AoAAAAAAAAABI278vLs0AAA="}}
{"data":{"documents":[{"_id":2},{"_id":3},{"_id":4},{"_id":5},{"_id":6},{"_id":7},{"_id":8},{"_id":9},{"_id":10},{"_id":11},{"_id":12},{"_id":13},{"_id":14},{"_id":15},{"_id":16},{"_id":17},{"_id":18},{"_id":19},{"_id":20},{"_id":21}],"nextPageState":null}}
{"data":{"documents":[{"_id":2},{"_id":3},{"_id":4},{"_id":5},{"_id":6},{"_id":7},{"_id":8},{"_id":9},{"_id":10},{"_id":11},{"_id":12},{"_id":13},{"_id":14},{"_id":15},{"_id":16},{"_id":17},{"_id":18},{"_id":19},{"_id":20}],"nextPageState":null}}
{"data":{"documents":[{"_id":38},{"_id":39},{"_id":40},{"_id":41}],"nextPageState":null}}
{"data":{"documents":[],"nextPageState":null}}
{"data":{"documents":[{"_id":40},{"_id":41}],"nextPageState":null}}
{"data":{"documents":[],"nextPageState":null}}
{"data":{"documents":[{"_id":41}],"nextPageState":null}}
{"data":{"documents":[{"_id":3},{"_id":7}],"nextPageState":null}}
---
"#;

// States behind ids of every kind, and texts that are no states.
pub(super) const STATES: &str = r#"run --collection=c
/v1/ks/c {"insertOne":{"document":{"_id":{"$date":0}}}}
/v1/ks/c {"insertOne":{"document":{"_id":true}}}
/v1/ks/c {"insertOne":{"document":{"_id":"b"}}}
/v1/ks/c {"insertOne":{"document":{"_id":-1.5}}}
/v1/ks/c {"insertOne":{"document":{"_id":null}}}
/v1/ks/c {"insertOne":{"document":{"_id":"B"}}}
/v1/ks/c {"insertOne":{"document":{"_id":10}}}
/v1/ks/c {"insertOne":{"document":{"_id":false}}}
/v1/ks/c {"insertOne":{"document":{"_id":{"$date":-1}}}}
/v1/ks/c {"insertOne":{"document":{"_id":2}}}
/v1/ks/c {"insertOne":{"document":{"_id":"a"}}}
/v1/ks/c {"find":{}}
/v1/ks/c {"find":{"options":{"pageState":"AQAAAAAAAAABAUI="}}}
/v1/ks/c {"find":{"options":{"pageState":"AQAAAAAAAAABAWI="}}}
/v1/ks/c {"find":{"options":{"pageState":"AQAAAAAAAAABAn//////////6y7t8oTqAAA="}}}
/v1/ks/c {"find":{"options":{"pageState":"AQAAAAAAAAABAoAAAAAAAAAAiscjBInoAAA="}}}
/v1/ks/c {"find":{"options":{"pageState":"AQAAAAAAAAABAss7TKhahsR6CYoiP/////8="}}}
/v1/ks/c {"find":{"options":{"pageState":"AQAAAAAAAAABAwA="}}}
/v1/ks/c {"find":{"options":{"pageState":"AQAAAAAAAAABAwE="}}}
/v1/ks/c {"find":{"options":{"pageState":"AQAAAAAAAAABBA=="}}}
/v1/ks/c {"find":{"options":{"pageState":"AQAAAAAAAAABBX//////////"}}}
/v1/ks/c {"find":{"options":{"pageState":"AQAAAAAAAAABBYAAAAAAAAAA"}}}
/v1/ks/c {"find":{"options":{"pageState":"AQAAAAAAAAABBf//////////"}}}
=> 0
{"status":{"insertedIds":[{"$date":0}]}}
{"status":{"insertedIds":[true]}}
{"status":{"insertedIds":["b"]}}
{"status":{"insertedIds":[-1.5]}}
{"status":{"insertedIds":[null]}}
{"status":{"insertedIds":["B"]}}
{"status":{"insertedIds":[10]}}
{"status":{"insertedIds":[false]}}
{"status":{"insertedIds":[{"$date":-1}]}}
{"status":{"insertedIds":[2]}}
{"status":{"insertedIds":["a"]}}
{"data":{"documents":[{"_id":"B"},{"_id":"a"},{"_id":"b"},{"_id":-1.5},{"_id":2},{"_id":10},{"_id":false},{"_id":true},{"_id":null},{"_id":{"$date":-1}},{"_id":{"$date":0}}],"nextPageState":null}}
{"data":{"documents":[{"_id":"a"},{"_id":"b"},{"_id":-1.5},{"_id":2},{"_id":10},{"_id":false},{"_id":true},{"_id":null},{"_id":{"$date":-1}},{"_id":{"$date":0}}],"nextPageState":null}}
{"data":{"documents":[{"_id":-1.5},{"_id":2},{"_id":10},{"_id":false},{"_id":true},{"_id":null},{"_id":{"$date":-1}},{"_id":{"$date":0}}],"nextPageState":null}}
{"data":{"documents":[{"_id":2},{"_id":10},{"_id":false},{"_id":true},{"_id":null},{"_id":{"$date":-1}},{"_id":{"$date":0}}],"nextPageState":null}}
{"data":{"documents":[{"_id":false},{"_id":true},{"_id":null},{"_id":{"$date":-1}},{"_id":{"$date":0}}],"nextPageState":null}}
{"data":{"documents":[{"_id":false},{"_id":true},{"_id":null},{"_id":{"$date":-1}},{"_id":{"$date":0}}],"nextPageState":null}}
{"data":{"documents":[{"_id":true},{"_id":null},{"_id":{"$date":-1}},{"_id":{"$date":0}}],"nextPageState":null}}
{"data":{"documents":[{"_id":null},{"_id":{"$date":-1}},{"_id":{"$date":0}}],"nextPageState":null}}
{"data":{"documents":[{"_id":{"$date":-1}},{"_id":{"$date":0}}],"nextPageState":null}}
{"data":{"documents":[{"_id":{"$date":0}}],"nextPageState":null}}
{"data":{"documents":[],"nextPageState":null}}
{"data":{"documents":[],"nextPageState":null}}
---
run --collection=c
/v1/ks/c {"insertOne":{"document":{"_id":"a"}}}
/v1/ks/c {"find":{"options":{"pageState":"AQAAAAAAAAAAAUE="}}}
/v1/ks/c {"find":{"options":{"pageState":""}}}
/v1/ks/c {"find":{"options":{"pageState":"AQAAAAAAAAAAAUE"}}}
/v1/ks/c {"find":{"options":{"pageState":"AQAAAAAAAAAAAUE=="}}}
/v1/ks/c {"find":{"options":{"pageState":"AQAAAAAAAAAAAUE=\n"}}}
/v1/ks/c {"find":{"options":{"pageState":"AQAAAAAAAAAAAUE-"}}}
/v1/ks/c {"find":{"options":{"pageState":"AQAAAAAAAAA-AT4-Pj8="}}}
/v1/ks/c {"find":{"options":{"pageState":"AQAAAAAAAAAAAUE/Pn4="}}}
/v1/ks/c {"find":{"options":{"pageState":"AQAAAAAAAAAAAUF="}}}
/v1/ks/c {"find":{"options":{"pageState":"AQAAAAAAAAAABB=="}}}
/v1/ks/c {"find":{"options":{"pageState":""}}}
/v1/ks/c {"find":{"options":{"pageState":"AQ=="}}}
/v1/ks/c {"find":{"options":{"pageState":"AQAAAAAAAAA="}}}
/v1/ks/c {"find":{"options":{"pageState":"AQAAAAAAAAAA"}}}
/v1/ks/c {"find":{"options":{"pageState":"AAAAAAAAAAAAAUE="}}}
/v1/ks/c {"find":{"options":{"pageState":"AgAAAAAAAAAAAUE="}}}
/v1/ks/c {"find":{"options":{"pageState":"AYAAAAAAAAAAAUE="}}}
/v1/ks/c {"find":{"options":{"pageState":"AQAAAAAAAAAAAQ=="}}}
/v1/ks/c {"find":{"options":{"pageState":"AQAAAAAAAAAAAf8="}}}
/v1/ks/c {"find":{"options":{"pageState":"AQAAAAAAAAAAAA=="}}}
/v1/ks/c {"find":{"options":{"pageState":"AQAAAAAAAAAABg=="}}}
/v1/ks/c {"find":{"options":{"pageState":"AQAAAAAAAAAAAss7TKhahsR6CYoiQAAAAAA="}}}
/v1/ks/c {"find":{"options":{"pageState":"AQAAAAAAAAAAAjTEs1eleTuF9nXdwAAAAAA="}}}
/v1/ks/c {"find":{"options":{"pageState":"AQAAAAAAAAAAAjTEs1eleTuF9nXdwAAAAAE="}}}
/v1/ks/c {"find":{"options":{"pageState":"AQAAAAAAAAAAAoAAAAAAAAAAAAAAAAAAAA=="}}}
/v1/ks/c {"find":{"options":{"pageState":"AQAAAAAAAAAAAoAAAAAAAAAAAAAAAAAAAAAA"}}}
/v1/ks/c {"find":{"options":{"pageState":"AQAAAAAAAAAAAw=="}}}
/v1/ks/c {"find":{"options":{"pageState":"AQAAAAAAAAAAAwI="}}}
/v1/ks/c {"find":{"options":{"pageState":"AQAAAAAAAAAABAA="}}}
/v1/ks/c {"find":{"options":{"pageState":"AQAAAAAAAAAABYAAAAAAAAA="}}}
/v1/ks/c {"find":{"options":{"pageState":"AQAAAAAAAAAABYAAAAAAAAAAAA=="}}}
/v1/ks/c {"find":{"options":{"pageState":"AQAAAAAAAAAABQAAAAAAAAAA"}}}
=> 0
{"status":{"insertedIds":["a"]}}
{"data":{"documents":[{"_id":"a"}],"nextPageState":null}}
{"errors":[{"message":"Page state is invalid","errorCode":"INVALID_PAGE_STATE"}]}
{"errors":[{"message":"Page state is invalid","errorCode":"INVALID_PAGE_STATE"}]}
{"errors":[{"message":"Page state is invalid","errorCode":"INVALID_PAGE_STATE"}]}
{"errors":[{"message":"Page state is invalid","errorCode":"INVALID_PAGE_STATE"}]}
{"errors":[{"message":"Page state is invalid","errorCode":"INVALID_PAGE_STATE"}]}
{"errors":[{"message":"Page state is invalid","errorCode":"INVALID_PAGE_STATE"}]}
{"data":{"documents":[{"_id":"a"}],"nextPageState":null}}
{"errors":[{"message":"Page state is invalid","errorCode":"INVALID_PAGE_STATE"}]}
{"errors":[{"message":"Page state is invalid","errorCode":"INVALID_PAGE_STATE"}]}
{"errors":[{"message":"Page state is invalid","errorCode":"INVALID_PAGE_STATE"}]}
{"errors":[{"message":"Page state is invalid","errorCode":"INVALID_PAGE_STATE"}]}
{"errors":[{"message":"Page state is invalid","errorCode":"INVALID_PAGE_STATE"}]}
{"errors":[{"message":"Page state is invalid","errorCode":"INVALID_PAGE_STATE"}]}
{"errors":[{"message":"Page state is invalid","errorCode":"INVALID_PAGE_STATE"}]}
{"errors":[{"message":"Page state is invalid","errorCode":"INVALID_PAGE_STATE"}]}
{"errors":[{"message":"Page state is invalid","errorCode":"INVALID_PAGE_STATE"}]}
{"errors":[{"message":"Page state is invalid","errorCode":"INVALID_PAGE_STATE"}]}
{"errors":[{"message":"Page state is invalid","errorCode":"INVALID_PAGE_STATE"}]}
{"errors":[{"message":"Page state is invalid","errorCode":"INVALID_PAGE_STATE"}]}
{"errors":[{"message":"Page state is invalid","errorCode":"INVALID_PAGE_STATE"}]}
{"errors":[{"message":"Page state is invalid","errorCode":"INVALID_PAGE_STATE"}]}
{"errors":[{"message":"Page state is invalid","errorCode":"INVALID_PAGE_STATE"}]}
{"data":{"documents":[],"nextPageState":null}}
{"errors":[{"message":"Page state is invalid","errorCode":"INVALID_PAGE_STATE"}]}
{"errors":[{"message":"Page state is invalid","errorCode":"INVALID_PAGE_STATE"}]}
{"errors":[{"message":"Page state is invalid","errorCode":"INVALID_PAGE_STATE"}]}
{"errors":[{"message":"Page state is invalid","errorCode":"INVALID_PAGE_STATE"}]}
{"errors":[{"message":"Page state is invalid","errorCode":"INVALID_PAGE_STATE"}]}
{"errors":[{"message":"Page state is invalid","errorCode":"INVALID_PAGE_STATE"}]}
{"errors":[{"message":"Page state is invalid","errorCode":"INVALID_PAGE_STATE"}]}
{"data":{"documents":[],"nextPageState":null}}
---
"#;

// What find may be asked for, where it may be asked, and a failed call of the keeper.
pub(super) const OPTIONS: &str = r#"run --collection=c
/v1/ks/c {"insertOne":{"document":{"_id":"a"}}}
/v1/ks/c {"find":{"options":{}}}
/v1/ks/c {"find":{"options":{"limit":2147483647}}}
/v1/ks/c {"find":{"options":{"limit":1.0}}}
/v1/ks/c {"find":{"options":{"limit":2147483648}}}
/v1/ks/c {"find":{"options":{"limit":-1}}}
/v1/ks/c {"find":{"options":{"limit":1.5}}}
/v1/ks/c {"find":{"options":{"limit":"1"}}}
/v1/ks/c {"find":{"options":{"limit":null}}}
/v1/ks/c {"find":{"options":{"skip":0}}}
/v1/ks/c {"find":{"options":{"skip":-0.0}}}
/v1/ks/c {"find":{"options":{"skip":1}}}
/v1/ks/c {"find":{"options":{"skip":481}}}
/v1/ks/c {"find":{"options":{"skip":2147483648}}}
/v1/ks/c {"find":{"options":{"skip":-1}}}
/v1/ks/c {"find":{"options":{"skip":null}}}
/v1/ks/c {"find":{"options":{"pageState":null}}}
/v1/ks/c {"find":{"options":{"pageState":1}}}
/v1/ks/c {"find":{"options":{"pageState":false}}}
/v1/ks/c {"find":{"options":{"pageState":["AA=="]}}}
/v1/ks/c {"find":{"options":[]}}
/v1/ks/c {"find":{"options":null}}
/v1/ks/c {"find":{"options":{"$date":0}}}
/v1/ks/c {"find":{"options":{"upsert":true}}}
/v1/ks/c {"find":{"options":{"Limit":1}}}
/v1/ks/c {"find":{"options":{"limit":1,"x":2,"skip":"1"}}}
/v1/ks/c {"find":{"options":{"skip":1,"limit":"1"}}}
/v1/ks/c {"find":{"options":{"limit":1,"limit":2}}}
/v1/ks/c {"find":{"sort":{"k":1},"options":{"skip":480}}}
/v1/ks/c {"find":{"sort":{"k":1},"options":{"skip":481}}}
/v1/ks/c {"find":{"sort":{"k":1},"options":{"skip":2147483647}}}
/v1/ks/c {"find":{"sort":{"k":1},"options":{"skip":2147483648}}}
/v1/ks/c {"find":{"sort":{"k":1},"options":{"pageState":null}}}
/v1/ks/c {"find":{"sort":{"k":1},"options":{"pageState":"AA=="}}}
/v1/ks/c {"find":{"sort":{},"options":{"skip":1}}}
/v1/ks/c {"find":{"sort":{},"options":{"pageState":"AA=="}}}
/v1/ks/c {"find":{"options":{"skip":7,"pageState":"AA=="}}}
/v1/ks/c {"find":{"sort":{"k":2},"options":{"skip":481}}}
/v1/ks/c {"find":{"speed":1}}
/v1/ks/c {"find":{"filter":[]}}
/v1/ks/c {"find":{"sort":[]}}
/v1/ks/c {"find":{"projection":[]}}
/v1/ks/c {"find":{"sort":{"$date":0}}}
/v1/ks/c {"find":{"projection":{"$date":0}}}
/v1/ks/c {"find":{"document":{}}}
/v1/ks/c {"find":{"update":{}}}
/v1/ks/c {"find":{"sort":1,"speed":1}}
/v1/ks/c {"find":{"speed":1,"sort":1}}
/v1/ks/c {"find":{"options":{"limit":-1},"sort":1}}
/v1/ks/c {"find":{"sort":1,"options":{"limit":-1}}}
/v1/ks/c {"find":{"projection":null}}
/v1/ks/c {"find":[]}
/v1/ks/c {"find":{"$date":0}}
/v1/ks/c {"find":{},"findOne":{}}
/v1/ks {"find":{}}
/v1/ks/zz {"find":{}}
/v1/ks/9c {"find":{}}
/v1/other/c {"find":{}}
/v1/other/9c {"find":[]}
/v1/ks/9c {"find":{"speed":1}}
/v1/ks/zz {"find":{"sort":{"k":1}}}
/v1/ks/zz {"find":{"options":{"limit":20,"pageState":"AQAAAAAAAAAUAWE="}}}
/v1/ks/zz {"find":{"options":{"pageState":"AA=="}}}
/v1/ks/zz {"find":{"options":{"limit":-1}}}
=> 0
{"status":{"insertedIds":["a"]}}
{"data":{"documents":[{"_id":"a"}],"nextPageState":null}}
{"data":{"documents":[{"_id":"a"}],"nextPageState":null}}
{"data":{"documents":[{"_id":"a"}],"nextPageState":null}}
{"errors":[{"message":"Command field invalid: options.limit","errorCode":"COMMAND_FIELD_INVALID"}]}
{"errors":[{"message":"Command field invalid: options.limit","errorCode":"COMMAND_FIELD_INVALID"}]}
{"errors":[{"message":"Command field invalid: options.limit","errorCode":"COMMAND_FIELD_INVALID"}]}
{"errors":[{"message":"Command field invalid: options.limit","errorCode":"COMMAND_FIELD_INVALID"}]}
{"errors":[{"message":"Command field invalid: options.limit","errorCode":"COMMAND_FIELD_INVALID"}]}
{"data":{"documents":[{"_id":"a"}],"nextPageState":null}}
{"data":{"documents":[{"_id":"a"}],"nextPageState":null}}
{"errors":[{"message":"Command field invalid: options.skip","errorCode":"COMMAND_FIELD_INVALID"}]}
{"errors":[{"message":"Command field invalid: options.skip","errorCode":"COMMAND_FIELD_INVALID"}]}
{"errors":[{"message":"Command field invalid: options.skip","errorCode":"COMMAND_FIELD_INVALID"}]}
{"errors":[{"message":"Command field invalid: options.skip","errorCode":"COMMAND_FIELD_INVALID"}]}
{"errors":[{"message":"Command field invalid: options.skip","errorCode":"COMMAND_FIELD_INVALID"}]}
{"data":{"documents":[{"_id":"a"}],"nextPageState":null}}
{"errors":[{"message":"Command field invalid: options.pageState","errorCode":"COMMAND_FIELD_INVALID"}]}
{"errors":[{"message":"Command field invalid: options.pageState","errorCode":"COMMAND_FIELD_INVALID"}]}
{"errors":[{"message":"Command field invalid: options.pageState","errorCode":"COMMAND_FIELD_INVALID"}]}
{"errors":[{"message":"Command field invalid: options","errorCode":"COMMAND_FIELD_INVALID"}]}
{"errors":[{"message":"Command field invalid: options","errorCode":"COMMAND_FIELD_INVALID"}]}
{"errors":[{"message":"Command field invalid: options","errorCode":"COMMAND_FIELD_INVALID"}]}
{"errors":[{"message":"Command field invalid: options.upsert","errorCode":"COMMAND_FIELD_INVALID"}]}
{"errors":[{"message":"Command field invalid: options.Limit","errorCode":"COMMAND_FIELD_INVALID"}]}
{"errors":[{"message":"Command field invalid: options.x","errorCode":"COMMAND_FIELD_INVALID"}]}
{"errors":[{"message":"Command field invalid: options.limit","errorCode":"COMMAND_FIELD_INVALID"}]}
{"data":{"documents":[{"_id":"a"}],"nextPageState":null}}
{"data":{"documents":[],"nextPageState":null}}
{"errors":[{"message":"Command limit skip is 480, found 481","errorCode":"COMMAND_LIMIT_VIOLATION"}]}
{"errors":[{"message":"Command limit skip is 480, found 2147483647","errorCode":"COMMAND_LIMIT_VIOLATION"}]}
{"errors":[{"message":"Command field invalid: options.skip","errorCode":"COMMAND_FIELD_INVALID"}]}
{"data":{"documents":[{"_id":"a"}],"nextPageState":null}}
{"errors":[{"message":"Command field invalid: options.pageState","errorCode":"COMMAND_FIELD_INVALID"}]}
{"errors":[{"message":"Command field invalid: options.skip","errorCode":"COMMAND_FIELD_INVALID"}]}
{"errors":[{"message":"Page state is invalid","errorCode":"INVALID_PAGE_STATE"}]}
{"errors":[{"message":"Command field invalid: options.skip","errorCode":"COMMAND_FIELD_INVALID"}]}
{"errors":[{"message":"Command limit skip is 480, found 481","errorCode":"COMMAND_LIMIT_VIOLATION"}]}
{"errors":[{"message":"Command field invalid: speed","errorCode":"COMMAND_FIELD_INVALID"}]}
{"errors":[{"message":"Command field invalid: filter","errorCode":"COMMAND_FIELD_INVALID"}]}
{"errors":[{"message":"Command field invalid: sort","errorCode":"COMMAND_FIELD_INVALID"}]}
{"errors":[{"message":"Command field invalid: projection","errorCode":"COMMAND_FIELD_INVALID"}]}
{"errors":[{"message":"Command field invalid: sort","errorCode":"COMMAND_FIELD_INVALID"}]}
{"errors":[{"message":"Command field invalid: projection","errorCode":"COMMAND_FIELD_INVALID"}]}
{"errors":[{"message":"Command field invalid: document","errorCode":"COMMAND_FIELD_INVALID"}]}
{"errors":[{"message":"Command field invalid: update","errorCode":"COMMAND_FIELD_INVALID"}]}
{"errors":[{"message":"Command field invalid: sort","errorCode":"COMMAND_FIELD_INVALID"}]}
{"errors":[{"message":"Command field invalid: speed","errorCode":"COMMAND_FIELD_INVALID"}]}
{"errors":[{"message":"Command field invalid: options.limit","errorCode":"COMMAND_FIELD_INVALID"}]}
{"errors":[{"message":"Command field invalid: sort","errorCode":"COMMAND_FIELD_INVALID"}]}
{"errors":[{"message":"Command field invalid: projection","errorCode":"COMMAND_FIELD_INVALID"}]}
{"errors":[{"message":"Command field invalid: find","errorCode":"COMMAND_FIELD_INVALID"}]}
{"errors":[{"message":"Command field invalid: find","errorCode":"COMMAND_FIELD_INVALID"}]}
{"errors":[{"message":"No command matched","errorCode":"NO_COMMAND_MATCHED"}]}
{"errors":[{"message":"No command matched","errorCode":"NO_COMMAND_MATCHED"}]}
{"errors":[{"message":"Collection zz does not exist","errorCode":"COLLECTION_NOT_EXIST"}]}
{"errors":[{"message":"Collection name is invalid: 9c","errorCode":"INVALID_COLLECTION_NAME"}]}
{"errors":[{"message":"Keyspace other does not exist","errorCode":"KEYSPACE_NOT_EXIST"}]}
{"errors":[{"message":"Keyspace other does not exist","errorCode":"KEYSPACE_NOT_EXIST"}]}
{"errors":[{"message":"Collection name is invalid: 9c","errorCode":"INVALID_COLLECTION_NAME"}]}
{"errors":[{"message":"Collection zz does not exist","errorCode":"COLLECTION_NOT_EXIST"}]}
{"errors":[{"message":"Collection zz does not exist","errorCode":"COLLECTION_NOT_EXIST"}]}
{"errors":[{"message":"Page state is invalid","errorCode":"INVALID_PAGE_STATE"}]}
{"errors":[{"message":"Command field invalid: options.limit","errorCode":"COMMAND_FIELD_INVALID"}]}
---
run --collection=c | keeper=3
/v1/ks/c {"find":{}}
/v1/ks/c {"find":{}}
/v1/ks/zz {"find":{}}
=> 0
{"errors":[{"message":"Store fault: 0 then 1","errorCode":"STORE_FAULT"}]}
{"data":{"documents":[],"nextPageState":null}}
{"errors":[{"message":"Collection zz does not exist","errorCode":"COLLECTION_NOT_EXIST"}]}
---
run --collection=c | keeper=4
/v1/ks/c {"insertOne":{"document":{"_id":"a"}}}
/v1/ks/c {"find":{"sort":{"k":1}}}
/v1/ks/c {"find":{"sort":{"k":1}}}
=> 0
{"status":{"insertedIds":["a"]}}
{"errors":[{"message":"Store fault: 0 then 1","errorCode":"STORE_FAULT"}]}
{"data":{"documents":[{"_id":"a"}],"nextPageState":null}}
---
run --collection=c | keeper=4
/v1/ks/c {"insertOne":{"document":{"_id":"a"}}}
/v1/ks/c {"find":{"options":{"limit":1,"pageState":"AQAAAAAAAAABAUE="}}}
/v1/ks/c {"find":{"options":{"limit":2,"pageState":"AQAAAAAAAAABAUE="}}}
=> 0
{"status":{"insertedIds":["a"]}}
{"errors":[{"message":"Store fault: 0 then 1","errorCode":"STORE_FAULT"}]}
{"data":{"documents":[{"_id":"a"}],"nextPageState":null}}
---
"#;
