// The reply on want of memory, in a buffer of a fixed size.
ghost use Rattle.std.specs.Prelude.{◌≡◌, ◌+◌, ◌<◌, ◌≤◌, [], ◌∷◌, ◌++◌, length};
ghost use Rattle.reply_env.specs.Reply.{reply_text};
ghost use Rattle.reply_env.specs.declared.reply.Reply.TheVariants.{NoMemory};

use std::marker::Model;

/// A text of at most 160 bytes, which takes no memory.
#[derive(Drop)]
pub struct FixedText {
    bytes: [u8; 160],
    len: usize,
}

impl Model for FixedText {
    ghost use Rattle.std.specs.Prelude.{ℕ, List, take, ◌≤◌};

    ghost Value = { List ℕ };

    ghost view = { λ t. take t.len t.bytes };

    ghost invariant = { λ t. t.len ≤ 160 };
}

impl FixedText {
    fn empty() -> FixedText
        ensures { result ≡ [] }
    {
        FixedText {
            bytes: [0; 160],
            len: 0,
        }
    }

    fn push(&mut self, byte: u8)
        requires { length self.old < 160 }
        ensures { self.new ≡ self.old ++ byte ∷ [] }
    {
        self.bytes[self.len] = byte;
        self.len += 1;
    }

    fn append(&mut self, piece: &[u8])
        requires { length self.old + length piece.now ≤ 160 }
        ensures { self.new ≡ self.old ++ piece.now }
    {
        for byte in piece {
            self.push(*byte);
        }
    }

    /// The bytes of the text.
    pub fn bytes(&self) -> &[u8]
        ensures { result.now ≡ self.now }
    {
        &self.bytes[..self.len]
    }
}

/// The text of the reply that memory ran out after so many accepted writes of the request.
pub fn no_memory_reply(accepted: u64) -> FixedText
    ensures { result ≡ reply_text (NoMemory accepted) }
{
    let mut buffer = itoa::Buffer::new();
    let mut text = FixedText::empty();
    text.append(b"{\"errors\":[{\"message\":\"Out of memory after ");
    text.append(buffer.format(accepted).as_bytes());
    text.append(b" accepted writes\",\"errorCode\":\"OUT_OF_MEMORY\"}]}");
    text
}
