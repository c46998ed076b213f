//! What is true of every list of steps. Each law speaks of definitions alone, of any list that is
//! legal from the words of a new board and whose tasks all keep the discipline, and its function
//! does nothing.

ghost use Rattle.std.specs.Prelude.{◌≡◌, ◌≢◌, ◌<◌, ℕ, List, AllPairs, Some};
ghost use Rattle.std.specs.List.Sorted.{IsPermutation};
ghost use Rattle.slot.specs.Pair.{Halves};
ghost use Rattle.slot_table.specs.Armings.{MeetOnce, armings_taken, armings_told};
ghost use Rattle.slot_table.specs.Discipline.{AllAreFinished, LegalInDiscipline, heard};
ghost use Rattle.slot_table.specs.Hearings.{EachHearsTheOther, HeardItsFinder, HeardItsSetter};
ghost use Rattle.slot_table.specs.Meetings.{finders_told, meetings_at, numbers_met, setters_heard};
ghost use Rattle.slot_table.specs.Parts.{IsEitherAt, IsFinderAt, IsSetterAt};
ghost use Rattle.slot_table.specs.Records.{records_of, words_after};
ghost use Rattle.slot_table.specs.Roles.{Stands, part_of};
ghost use Rattle.slot_table.specs.Words.{words_at_first};

use crate::discipline::Part;
use crate::records::Record;

/// Law: the watch word at each index tells who is its setter and who its finder, and what the
/// halves of the pair are.
pub fn law_roles()
    ensures { (page_slots locks : ℕ) (cells : List ℕ) (records : List Record)
        → LegalInDiscipline page_slots locks cells records
        → (index : ℕ)
        → Stands (words_after (words_at_first page_slots locks cells) records) records index }
{}

/// Law: a task is setter, or finder that has not yet told, of at most one index at a time, and
/// never both.
pub fn law_one_part_at_a_time()
    ensures one_index { (page_slots locks : ℕ) (cells : List ℕ) (records : List Record)
        → LegalInDiscipline page_slots locks cells records
        → (task i j : ℕ) → IsEitherAt task i records → IsEitherAt task j records → i ≡ j }
    ensures not_both { (page_slots locks : ℕ) (cells : List ℕ) (records : List Record)
        → LegalInDiscipline page_slots locks cells records
        → (task i j : ℕ) → IsSetterAt task i records → IsFinderAt task j records → ⊥ }
{}

/// Law: each taking is of the last arming at its index, which nobody took before, and each tell is
/// for one that was not told of before. So the armings of all takings are different, and those of
/// all tells.
pub fn law_armings_are_met_once()
    ensures once { (page_slots locks : ℕ) (cells : List ℕ) (records : List Record)
        → LegalInDiscipline page_slots locks cells records → MeetOnce records }
    ensures taken { (page_slots locks : ℕ) (cells : List ℕ) (records : List Record)
        → LegalInDiscipline page_slots locks cells records → AllPairs ◌≢◌ (armings_taken records) }
    ensures told { (page_slots locks : ℕ) (cells : List ℕ) (records : List Record)
        → LegalInDiscipline page_slots locks cells records → AllPairs ◌≢◌ (armings_told records) }
{}

/// Law: the setter's half that a finder heard since its taking is the ticket that the setter of the
/// arming which it took has named, and the finder's half that a setter heard since it found its
/// word hit is the ticket that the finder which took this very arming has told. So it is at each
/// tell, and at each clear of a setter whose word was hit. The insertion, the taking, the name and
/// the tell stand in the list, each of this arming.
pub fn law_each_hears_the_other()
    ensures finder { (page_slots locks : ℕ) (cells : List ℕ) (records : List Record)
        → LegalInDiscipline page_slots locks cells records
        → (task index word : ℕ) (both : Halves)
        → part_of task index records ≡ Some (Part.Taken word)
        → heard index (records_of task records) ≡ Some both → 0 < both.setter
        → HeardItsSetter task index word both records }
    ensures setter { (page_slots locks : ℕ) (cells : List ℕ) (records : List Record)
        → LegalInDiscipline page_slots locks cells records
        → (task index : ℕ) (both : Halves)
        → part_of task index records ≡ Some Part.Hit
        → heard index (records_of task records) ≡ Some both → 0 < both.finder
        → HeardItsFinder task index both records }
    ensures each { (page_slots locks : ℕ) (cells : List ℕ) (records : List Record)
        → LegalInDiscipline page_slots locks cells records → EachHearsTheOther records }
{}

/// Law: where no check is unfinished, the pairs of halves that setters heard at an index are those
/// that finders told there, over the same armings in the same order.
pub fn law_meetings_keep_their_order()
    ensures { (page_slots locks : ℕ) (cells : List ℕ) (records : List Record)
        → LegalInDiscipline page_slots locks cells records → AllAreFinished records
        → (index : ℕ)
        → meetings_at index (setters_heard records) ≡ meetings_at index (finders_told records) }
{}

/// Law: where no check is unfinished, the pairs of halves that setters heard are those that finders
/// told, as a bag. Each tell stands in it with its arming, and each arming at most once.
pub fn law_heard_is_told()
    ensures bag { (page_slots locks : ℕ) (cells : List ℕ) (records : List Record)
        → LegalInDiscipline page_slots locks cells records → AllAreFinished records
        → IsPermutation (setters_heard records) (finders_told records) }
    ensures tells { (page_slots locks : ℕ) (cells : List ℕ) (records : List Record)
        → LegalInDiscipline page_slots locks cells records
        → numbers_met (finders_told records) ≡ armings_told records }
    ensures once { (page_slots locks : ℕ) (cells : List ℕ) (records : List Record)
        → LegalInDiscipline page_slots locks cells records
        → AllPairs ◌≢◌ (numbers_met (finders_told records)) }
{}
