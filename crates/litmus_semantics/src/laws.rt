//! What is true of every run of a text.

ghost use Rattle.std.specs.Prelude.{◌≡◌, ◌≢◌, ◌<◌, ◌≤◌, ℕ, List, [], Some, length, slice_get};
ghost use Rattle.access_types.specs.Access as access;
ghost use Rattle.access_types.specs.Ticket.{ticket_number};
ghost use Rattle.access_types.specs.declared.history.Happening.TheVariants.{Begin};
ghost use Rattle.litmus_semantics.specs.Meaning.{MeansBlock};
ghost use Rattle.litmus_semantics.specs.Task.{Progress, Setting};
ghost use Rattle.litmus_semantics.specs.TextSites.{AllLoopsFit, FitsTickets, IsOfText, block_sites};
ghost use Rattle.litmus_syntax.specs.Limits.{BodyKeepsLimits};
ghost use Rattle.litmus_syntax.specs.Sites.{sites_of};
ghost use Rattle.litmus_syntax.specs.Tree.{Block};

/// Law: each access that begins in a run of a text is one of the text: of the bytes, the kind and the mask of
/// its site, and of a repetition that the loops round it leave room for.
pub fn law_each_access_is_one_of_the_text()
    ensures { (s : Setting) (body : Block) (registers : List ℕ) (end : Progress)
        → MeansBlock s 0 body (record { did = []; registers = registers }) end
        → (i : ℕ) (a : access.Access) → slice_get end.did i ≡ Some (Begin a) → IsOfText s body a }
{}

/// Law: accesses that begin at different moments of one run of a text have different tickets, where tickets have
/// room for its sites and their repetitions.
pub fn law_each_access_has_its_own_ticket()
    ensures { (s : Setting) (body : Block) (registers : List ℕ) (end : Progress)
        → MeansBlock s 0 body (record { did = []; registers = registers }) end → FitsTickets (block_sites s body)
        → (i j : ℕ) (a b : access.Access) → i < j → slice_get end.did i ≡ Some (Begin a) → slice_get end.did j ≡ Some (Begin b)
        → ticket_number a ≢ ticket_number b }
{}

/// Law: tickets have room for the sites of a text that keeps the limits, of which there are 256 at most, and its
/// loops fit.
pub fn law_tickets_have_room()
    ensures tickets { (s : Setting) (body : Block) → BodyKeepsLimits body → FitsTickets (block_sites s body) }
    ensures sites { (body : Block) → BodyKeepsLimits body → length (sites_of body) ≤ 256 }
    ensures loops { (body : Block) → BodyKeepsLimits body → AllLoopsFit 1 body }
{}
