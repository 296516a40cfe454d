// The generator of a session's ids: UUIDs of version 4 out of ChaCha20, as texts.
ghost use Rattle.std.specs.Prelude.{◌≡◌, ◌+◌, ◌∷◌, ◌++◌, [], ℕ, IfOk, IfErr, length};
ghost use Rattle.std.specs.List.{AllByRecursion as Each};
ghost use Rattle.rand_core.specs.Stream.{Stream};
ghost use Rattle.json_tree.specs.Tree as trees;
ghost use Rattle.json_tree.specs.Tree.{Tree};
ghost use Rattle.json_tree.specs.Id.{IsId, IsInRange};
ghost use Rattle.json_tree.specs.declared.fault.TreeFault.TheVariants.{NoMemory};
ghost use Rattle.cmd_tasks.specs.Ids.{begins, stream_of_ids, drawn, after_drawing, IsGenerated};

use json_tree::{DocId, Text, TreeFault, Value};
use rand_chacha::ChaCha20Rng;
use rand_core::SeedableRng;
use std::alloc::Global;
use uuid::Uuid;

/// So many session numbers differ in the key.
const LOW: u64 = 4_294_967_296;

/// What draws a session's ids, one after another.
#[derive(Drop)]
pub struct Ids {
    rng: ChaCha20Rng,
}

impl Ids {
    /// The generator of a session. The key is the seed and the low 32 bits of the session's number, the highest
    /// byte first, and the stream is the number of the first write after the base.
    pub fn new(seed: &[u8; 28], base_tx: u64, session: u64) -> Ids
        ensures { stream_of_ids result ≡ begins seed.now base_tx session }
    {
        let mut key = [0u8; 32];
        let low = ((session % LOW) as u32).to_be_bytes();
        key[..28].copy_from_slice(seed);
        key[28..].copy_from_slice(&low);
        let mut rng = ChaCha20Rng::from_seed(key);
        rng.set_stream(base_tx);
        Ids { rng }
    }

    /// The next id: the hyphenated text of a UUID in lower case. It counts as drawn also where memory is
    /// wanting for it.
    pub fn draw(&mut self, alloc: Global) -> Result<DocId, TreeFault>
        ensures id { IfOk result (λ id. id ∷ [] ≡ drawn 1 (stream_of_ids self.old)) }
        ensures err { IfErr result (λ e. e ≡ NoMemory) }
        ensures after { stream_of_ids self.new ≡ after_drawing 1 (stream_of_ids self.old) }
    {
        let uuid = Uuid::new_v4(&mut self.rng);
        let mut buffer = [0u8; 36];
        let text = uuid.hyphenated().encode_lower(&mut buffer);
        id_of(alloc, text)
    }
}

/// The id that a text of 36 bytes is.
fn id_of(alloc: Global, text: &str) -> Result<DocId, TreeFault>
    requires { length text.now ≡ 36 }
    ensures ok { IfOk result (λ id. id ≡ trees.text text.now) }
    ensures err { IfErr result (λ e. e ≡ NoMemory) }
{
    match Text::of_str(alloc, text) {
        Ok(text) => DocId::of_value(alloc, &Value::Text(text)),
        Err(fault) => Err(fault),
    }
}

/// Of n ids that are drawn each is a text of 36 bytes, each a digit, one of `a` to `f` or a hyphen, and an id.
/// Those drawn after others are the first ones of what is left.
pub fn drawn_ids_are_texts()
    ensures many { (n : ℕ) (s : Stream) → length (drawn n s) ≡ n }
    ensures texts { (n : ℕ) (s : Stream) → Each IsGenerated (drawn n s) }
    ensures ids { (t : Tree) → IsGenerated t → IsId t × IsInRange t }
    ensures more { (m n : ℕ) (s : Stream) → drawn (m + n) s ≡ drawn m s ++ drawn n (after_drawing m s) }
    ensures after { (m n : ℕ) (s : Stream) → after_drawing (m + n) s ≡ after_drawing n (after_drawing m s) }
{}
