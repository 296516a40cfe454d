// Requests, as they come by a line or by HTTP.
use json_tree::Text;

/// Where a request is sent: to a keyspace, or to a collection in it. The names are the client's, not judged yet.
#[derive(Drop)]
pub struct Place {
    pub keyspace: Text,
    pub collection: Option<Text>,
}

/// A request: its place and the bytes of its body.
#[derive(Drop)]
pub struct Request {
    pub place: Place,
    pub body: Vec<u8>,
}
