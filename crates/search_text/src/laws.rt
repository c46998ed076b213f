//! What is true of the texts of a search: laws over their definitions alone.

ghost use Rattle.std.specs.Prelude.{◌≡◌, ◌<◌, ◌^◌, [], ℕ, All, List};
ghost use Rattle.std.specs.List.{IsDistinct, flat_map};
ghost use Rattle.report_text.specs.Groups.{is_text};
ghost use Rattle.search_text.specs.FirstLists.{KeepsFirst, firsts_of};
ghost use Rattle.search_text.specs.SearchFindings.{Searched, sightings_in, states_of};
ghost use Rattle.search_text.specs.Schedules.{schedule_text};
ghost use Rattle.prepared_program.specs.step_schedule.Spelling.{Spells};
ghost use Rattle.prepared_program.specs.declared.step_schedule.schedule.Entry as entries;

/// Law: a schedule that is written is read back.
pub fn law_schedules_are_read_back()
    ensures { (schedule : List entries.Entry) → All (λ entry. (entry.task < 2 ^ 64) × (entry.steps < 2 ^ 64)) schedule
        → Spells (schedule_text schedule) schedule }
{}

/// Law: where no two lists have one final state, each final state is counted once.
pub fn law_states_are_counted_once()
    ensures { (lists : List Searched) → IsDistinct is_text (flat_map states_of lists)
        → All (λ sighting. sighting.1.0 ≡ 1) (sightings_in states_of lists) }
{}

/// Law: of lists that were searched, the first with each text are enough for the texts, their order, and the schedule of
/// the first list with each. What they don't tell is how many lists have it.
pub fn law_first_lists_are_enough()
    ensures { (of : Searched → List (List ℕ)) (all some : List Searched) → KeepsFirst of [] all some
        → firsts_of (sightings_in of all) ≡ firsts_of (sightings_in of some) }
{}
