// Rows of the commands on collections, in the form of the other rows.

// Collections that are made, deleted and made again; what is left of them; as many as there may be; failed calls, and no number left.
pub(super) const COLLECTIONS: &str = r#"run --collection=c
/v1/ks {"createCollection":{"name":"d"}}
/v1/ks {"findCollections":{}}
/v1/ks {"deleteCollection":{"name":"d"}}
/v1/ks {"deleteCollection":{"name":"d"}}
/v1/ks {"findCollections":{}}
/v1/ks/zz {"find":{}}
/v1/ks/9c {"find":{}}
/v1/other/c {"find":{}}
/v1/ks/c {"find":{"speed":1}}
=> 0
{"status":{"ok":1}}
{"status":{"collections":["c","d"]}}
{"status":{"ok":1}}
{"status":{"ok":1}}
{"status":{"collections":["c"]}}
{"errors":[{"message":"Collection zz does not exist","errorCode":"COLLECTION_NOT_EXIST"}]}
{"errors":[{"message":"Collection name is invalid: 9c","errorCode":"INVALID_COLLECTION_NAME"}]}
{"errors":[{"message":"Keyspace other does not exist","errorCode":"KEYSPACE_NOT_EXIST"}]}
{"errors":[{"message":"Command field invalid: speed","errorCode":"COMMAND_FIELD_INVALID"}]}
---
run
/v1/ks {"findCollections":{}}
/v1/ks/c {"insertOne":{"document":{"_id":1}}}
/v1/ks {"createCollection":{"name":"c"}}
/v1/ks {"createCollection":{"name":"c"}}
/v1/ks/c {"insertOne":{"document":{"_id":1}}}
/v1/ks {"createCollection":{"name":"c"}}
/v1/ks/c {"countDocuments":{}}
/v1/ks {"createCollection":{"name":"C"}}
/v1/ks {"createCollection":{"name":"a_1"}}
/v1/ks {"findCollections":{}}
/v1/ks/C {"insertOne":{"document":{"_id":1}}}
/v1/ks/C {"insertOne":{"document":{"_id":1}}}
/v1/ks {"deleteCollection":{"name":"c"}}
/v1/ks/c {"countDocuments":{}}
/v1/ks/c {"insertOne":{"document":{"_id":1}}}
/v1/ks/c {"updateOne":{"update":{},"options":{"upsert":true}}}
/v1/ks/c {"findOneAndDelete":{}}
/v1/ks {"findCollections":{}}
/v1/ks {"createCollection":{"name":"c"}}
/v1/ks {"findCollections":{}}
/v1/ks/c {"find":{}}
/v1/ks/c {"insertOne":{"document":{"_id":1,"n":2}}}
/v1/ks/c {"insertOne":{"document":{"_id":1}}}
/v1/ks/C {"find":{}}
/v1/ks {"deleteCollection":{"name":"zz"}}
/v1/ks {"deleteCollection":{"name":"C"}}
/v1/ks {"deleteCollection":{"name":"a_1"}}
/v1/ks {"deleteCollection":{"name":"c"}}
/v1/ks {"findCollections":{}}
/v1/ks/C {"find":{}}
=> 0
{"status":{"collections":[]}}
{"errors":[{"message":"Collection c does not exist","errorCode":"COLLECTION_NOT_EXIST"}]}
{"status":{"ok":1}}
{"status":{"ok":1}}
{"status":{"insertedIds":[1]}}
{"status":{"ok":1}}
{"status":{"count":1}}
{"status":{"ok":1}}
{"status":{"ok":1}}
{"status":{"collections":["c","C","a_1"]}}
{"status":{"insertedIds":[1]}}
{"errors":[{"message":"Document 1 already exists at version 2","errorCode":"DOCUMENT_ALREADY_EXISTS"}]}
{"status":{"ok":1}}
{"errors":[{"message":"Collection c does not exist","errorCode":"COLLECTION_NOT_EXIST"}]}
{"errors":[{"message":"Collection c does not exist","errorCode":"COLLECTION_NOT_EXIST"}]}
{"errors":[{"message":"Collection c does not exist","errorCode":"COLLECTION_NOT_EXIST"}]}
{"errors":[{"message":"Collection c does not exist","errorCode":"COLLECTION_NOT_EXIST"}]}
{"status":{"collections":["C","a_1"]}}
{"status":{"ok":1}}
{"status":{"collections":["C","a_1","c"]}}
{"data":{"documents":[],"nextPageState":null}}
{"status":{"insertedIds":[1]}}
{"errors":[{"message":"Document 1 already exists at version 3","errorCode":"DOCUMENT_ALREADY_EXISTS"}]}
{"data":{"documents":[{"_id":1}],"nextPageState":null}}
{"status":{"ok":1}}
{"status":{"ok":1}}
{"status":{"ok":1}}
{"status":{"ok":1}}
{"status":{"collections":[]}}
{"errors":[{"message":"Collection C does not exist","errorCode":"COLLECTION_NOT_EXIST"}]}
---
run --collection=n0 --collection=n1 --collection=n2 --collection=n3 --collection=n4 --collection=n5 --collection=n6 --collection=n7 --collection=n8 --collection=n9 --collection=n10 --collection=n11 --collection=n12 --collection=n13 --collection=n14 --collection=n15 --collection=n16 --collection=n17 --collection=n18 --collection=n19 --collection=n20 --collection=n21 --collection=n22 --collection=n23 --collection=n24 --collection=n25 --collection=n26 --collection=n27 --collection=n28 --collection=n29 --collection=n30 --collection=n31 --collection=n32 --collection=n33 --collection=n34 --collection=n35 --collection=n36 --collection=n37 --collection=n38 --collection=n39 --collection=n40 --collection=n41 --collection=n42 --collection=n43 --collection=n44 --collection=n45 --collection=n46 --collection=n47 --collection=n48 --collection=n49 --collection=n50 --collection=n51 --collection=n52 --collection=n53 --collection=n54 --collection=n55 --collection=n56 --collection=n57 --collection=n58 --collection=n59 --collection=n60 --collection=n61 --collection=n62 --collection=n63 --collection=n64 --collection=n65 --collection=n66 --collection=n67 --collection=n68 --collection=n69 --collection=n70 --collection=n71 --collection=n72 --collection=n73 --collection=n74 --collection=n75 --collection=n76 --collection=n77 --collection=n78 --collection=n79 --collection=n80 --collection=n81 --collection=n82 --collection=n83 --collection=n84 --collection=n85 --collection=n86 --collection=n87 --collection=n88 --collection=n89 --collection=n90 --collection=n91 --collection=n92 --collection=n93 --collection=n94 --collection=n95 --collection=n96 --collection=n97 --collection=n98 --collection=n99
/v1/ks {"createCollection":{"name":"n7"}}
/v1/ks {"createCollection":{"name":"more"}}
/v1/ks {"createCollection":{"name":"9c"}}
/v1/ks {"deleteCollection":{"name":"more"}}
/v1/ks {"createCollection":{"name":"more"}}
/v1/ks {"deleteCollection":{"name":"n99"}}
/v1/ks {"createCollection":{"name":"more"}}
/v1/ks {"createCollection":{"name":"n99"}}
/v1/ks {"createCollection":{"name":"n0"}}
/v1/ks/more {"insertOne":{"document":{"_id":1}}}
/v1/ks {"findCollections":{}}
/v1/ks {"deleteCollection":{"name":"n0"}}
/v1/ks {"createCollection":{"name":"n99"}}
/v1/ks {"createCollection":{"name":"n0"}}
=> 0
{"status":{"ok":1}}
{"errors":[{"message":"At most 100 collections","errorCode":"TOO_MANY_COLLECTIONS"}]}
{"errors":[{"message":"Collection name is invalid: 9c","errorCode":"INVALID_COLLECTION_NAME"}]}
{"status":{"ok":1}}
{"errors":[{"message":"At most 100 collections","errorCode":"TOO_MANY_COLLECTIONS"}]}
{"status":{"ok":1}}
{"status":{"ok":1}}
{"errors":[{"message":"At most 100 collections","errorCode":"TOO_MANY_COLLECTIONS"}]}
{"status":{"ok":1}}
{"status":{"insertedIds":[1]}}
{"status":{"collections":["n0","n1","n2","n3","n4","n5","n6","n7","n8","n9","n10","n11","n12","n13","n14","n15","n16","n17","n18","n19","n20","n21","n22","n23","n24","n25","n26","n27","n28","n29","n30","n31","n32","n33","n34","n35","n36","n37","n38","n39","n40","n41","n42","n43","n44","n45","n46","n47","n48","n49","n50","n51","n52","n53","n54","n55","n56","n57","n58","n59","n60","n61","n62","n63","n64","n65","n66","n67","n68","n69","n70","n71","n72","n73","n74","n75","n76","n77","n78","n79","n80","n81","n82","n83","n84","n85","n86","n87","n88","n89","n90","n91","n92","n93","n94","n95","n96","n97","n98","more"]}}
{"status":{"ok":1}}
{"status":{"ok":1}}
{"errors":[{"message":"At most 100 collections","errorCode":"TOO_MANY_COLLECTIONS"}]}
---
run --collection=c | keeper=3
/v1/ks {"createCollection":{"name":"d"}}
/v1/ks {"findCollections":{}}
/v1/ks {"createCollection":{"name":"d"}}
/v1/ks {"findCollections":{}}
=> 0
{"errors":[{"message":"Store fault: 0 then 1","errorCode":"STORE_FAULT"}]}
{"status":{"collections":["c"]}}
{"status":{"ok":1}}
{"status":{"collections":["c","d"]}}
---
run --collection=c | keeper=3
/v1/ks {"deleteCollection":{"name":"c"}}
/v1/ks {"findCollections":{}}
/v1/ks {"deleteCollection":{"name":"c"}}
/v1/ks {"findCollections":{}}
=> 0
{"errors":[{"message":"Store fault: 0 then 1","errorCode":"STORE_FAULT"}]}
{"status":{"collections":["c"]}}
{"status":{"ok":1}}
{"status":{"collections":[]}}
---
run --collection=c | keeper=3
/v1/ks {"findCollections":{}}
/v1/ks {"findCollections":{}}
=> 0
{"errors":[{"message":"Store fault: 0 then 1","errorCode":"STORE_FAULT"}]}
{"status":{"collections":["c"]}}
---
run --collection=c | last=9223372036854775806
/v1/ks {"createCollection":{"name":"d"}}
/v1/ks/d {"insertOne":{"document":{"_id":1}}}
/v1/ks/e {"insertOne":{"document":{"_id":1}}}
/v1/ks/e {"find":{}}
/v1/ks {"findCollections":{}}
/v1/ks {"deleteCollection":{"name":"c"}}
/v1/ks {"findCollections":{}}
/v1/ks/c {"find":{}}
=> 0
{"status":{"ok":1}}
{"errors":[{"message":"No version numbers are left","errorCode":"VERSIONS_SPENT"}]}
{"errors":[{"message":"No version numbers are left","errorCode":"VERSIONS_SPENT"}]}
{"errors":[{"message":"Collection e does not exist","errorCode":"COLLECTION_NOT_EXIST"}]}
{"status":{"collections":["c","d"]}}
{"status":{"ok":1}}
{"status":{"collections":["d"]}}
{"errors":[{"message":"Collection c does not exist","errorCode":"COLLECTION_NOT_EXIST"}]}
---
run --keyspace=shop --collection=c
/v1/ks {"findCollections":{}}
/v1/shop {"findCollections":{}}
/v1/shop {"createCollection":{"name":"d"}}
/v1/shop/d {"insertOne":{"document":{"_id":1}}}
/v1/shop/d {"createCollection":{"name":"e"}}
/v1/ks/d {"createCollection":{"name":"e"}}
/v1/shop {"countDocuments":{}}
/v1/shop {"findCollections":{},"x":1}
=> 0
{"errors":[{"message":"Keyspace ks does not exist","errorCode":"KEYSPACE_NOT_EXIST"}]}
{"status":{"collections":["c"]}}
{"status":{"ok":1}}
{"status":{"insertedIds":[1]}}
{"errors":[{"message":"No command matched","errorCode":"NO_COMMAND_MATCHED"}]}
{"errors":[{"message":"No command matched","errorCode":"NO_COMMAND_MATCHED"}]}
{"errors":[{"message":"No command matched","errorCode":"NO_COMMAND_MATCHED"}]}
{"errors":[{"message":"No command matched","errorCode":"NO_COMMAND_MATCHED"}]}
"#;
