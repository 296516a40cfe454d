// Commands.
use doc_paths::CollName;
use filter_tree::Filter;
use json_tree::{Items, Value};
use update_ops::Updates;
use view_sort::{PageState, Projection, Sort};

/// What a request asks for. A sort of no paths is none, and a projection of no paths shows the whole document. Where a
/// command has `upsert`, it tells whether a document is inserted where none matches; where it has `after`, whether the
/// document is shown as it is left, and not as it was found.
#[derive(Drop)]
pub enum Command {
    /// To insert a document. One without `_id` gets an id.
    InsertOne {
        document: Value,
    },
    /// To insert 1 to 100 documents, in their order. Those without `_id` get ids. Where they are `ordered`, the first
    /// whose id is taken ends the command.
    InsertMany {
        documents: Items,
        ordered: bool,
    },
    /// The first document that matches, in the order of the sort.
    FindOne {
        filter: Filter,
        sort: Sort,
        projection: Projection,
    },
    /// A page of the documents that match. `limit` is the most that all pages together show, 0 for any number. A
    /// page without a sort begins behind the one that `page` tells; under a sort, the first `skip` aren't shown.
    Find {
        filter: Filter,
        sort: Sort,
        projection: Projection,
        limit: u64,
        skip: u64,
        page: Option<PageState>,
    },
    /// How many documents match.
    CountDocuments {
        filter: Filter,
    },
    /// To update the first document that matches, in the order of the sort.
    UpdateOne {
        filter: Filter,
        updates: Updates,
        sort: Sort,
        upsert: bool,
    },
    /// To update the documents of one page that match. The page begins behind the one that `page` tells.
    UpdateMany {
        filter: Filter,
        updates: Updates,
        upsert: bool,
        page: Option<PageState>,
    },
    /// To delete the first document that matches, in the order of the sort.
    DeleteOne {
        filter: Filter,
        sort: Sort,
    },
    /// To delete the documents of one page that match.
    DeleteMany {
        filter: Filter,
    },
    /// To update the first document that matches, in the order of the sort, and to show it.
    FindOneAndUpdate {
        filter: Filter,
        updates: Updates,
        sort: Sort,
        projection: Projection,
        upsert: bool,
        after: bool,
    },
    /// To replace the first document that matches, in the order of the sort, and to show it. The replacement keeps the
    /// document's id.
    FindOneAndReplace {
        filter: Filter,
        replacement: Value,
        sort: Sort,
        projection: Projection,
        upsert: bool,
        after: bool,
    },
    /// To delete the first document that matches, in the order of the sort, and to show it as it was found.
    FindOneAndDelete {
        filter: Filter,
        sort: Sort,
        projection: Projection,
    },
    /// To make an empty collection, if it doesn't live.
    CreateCollection {
        name: CollName,
    },
    /// The names of the collections, in order of creation.
    FindCollections,
    /// To delete a collection with its documents, if it lives.
    DeleteCollection {
        name: CollName,
    },
}
