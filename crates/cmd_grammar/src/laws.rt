// Laws of requests: each function does nothing, and its clauses are the laws.
ghost use Rattle.std.specs.Prelude.{◌≡◌, ℕ, List, Some, None};
ghost use Rattle.json_tree.specs.Tree.{Tree, text};
ghost use Rattle.json_tree.specs.Doc.{id_in};
ghost use Rattle.update_ops.specs.Upsert.{with_id};
ghost use Rattle.reply_env.specs.declared.reply.ErrorItem.{ErrorItem};
ghost use Rattle.reply_env.specs.declared.request.Place.{Place};
ghost use Rattle.cmd_grammar.specs.Commands.{CommandTree, IsStorable, IsInsertable};
ghost use Rattle.cmd_grammar.specs.Ids.{IsIdText};
ghost use Rattle.cmd_grammar.specs.Refused.{refused, IsRefusedBy};
ghost use Rattle.cmd_grammar.specs.Asked.{Asks};

use view_sort::page_states_are_one;

/// A place and a value show one command or one refusal, and not both.
pub fn answers_are_one()
    ensures command { (place : Place) (value : Tree) (one other : CommandTree) → Asks place value one → Asks place value other → one ≡ other }
    ensures refusal { (keyspace : List ℕ) (place : Place) (value : Tree) (one other : ErrorItem) → IsRefusedBy keyspace place value one → IsRefusedBy keyspace place value other → one ≡ other }
    ensures either { (keyspace : List ℕ) (place : Place) (value : Tree) (command : CommandTree) (error : ErrorItem) → refused keyspace place value ≡ None → Asks place value command → IsRefusedBy keyspace place value error → ⊥ }
{
    page_states_are_one();
}

/// A document that may be inserted may be stored as it is if it has an id, and if it has none under any text that is
/// made for ids.
pub fn documents_take_ids()
    ensures own { (t id : Tree) → IsInsertable t → id_in t ≡ Some id → IsStorable t }
    ensures made { (t : Tree) (u : List ℕ) → IsInsertable t → id_in t ≡ None → IsIdText u → IsStorable (with_id (text u) t) }
{}
