// The numbers of the layout, each once in the code and once in the definitions: specs/Process.antt (places and offsets),
// Evaluation.antt (doors, slots), Table.antt (gathered areas), WellFormed.antt, Arrivals.antt and Acceptance.antt (the other sizes).
// The functions below hold the two to each other.
ghost use Rattle.std.specs.Prelude.{◌∷◌, [], ◌≡◌, ◌+◌, ◌<◌};
ghost use Rattle.rules.specs.Acceptance.{scratch_words};
ghost use Rattle.rules.specs.Arrivals.{arrival_size};
ghost use Rattle.rules.specs.Evaluation.{doors, area_slots, gathered_slot};
ghost use Rattle.rules.specs.Process.{variable_places, gathered_places, latch_places, stack_places, most_processes};
ghost use Rattle.rules.specs.Process.{gathered_at, doors_at, latches_at, depth_at, stack_at, process_words};
ghost use Rattle.rules.specs.Table.{gathered_areas};
ghost use Rattle.rules.specs.WellFormed.{most_table_bytes};

// The parts of a process's words, in their order; between latches and stack stands the depth.
pub const VARIABLE_PLACES: usize = 32;

// "four rosters of sixteen": the areas of gathered words, and the slots of one.
pub const GATHERED_AREAS: usize = 4;

pub const AREA_SLOTS: usize = 16;

pub const GATHERED_PLACES: usize = GATHERED_AREAS * AREA_SLOTS;

pub const DOOR_PLACES: usize = 12;

pub const LATCH_PLACES: usize = 12;

pub const STACK_PLACES: usize = 256;

pub const GATHERED_AT: usize = VARIABLE_PLACES;

pub const DOORS_AT: usize = GATHERED_AT + GATHERED_PLACES;

pub const LATCHES_AT: usize = DOORS_AT + DOOR_PLACES;

pub const DEPTH_AT: usize = LATCHES_AT + LATCH_PLACES;

pub const STACK_AT: usize = DEPTH_AT + 1;

pub const PROCESS_WORDS: usize = STACK_AT + STACK_PLACES;

// The longest table, a record of the arrivals, the checker's scratch, and the processes of a team.
pub const MOST_TABLE_BYTES: usize = 1096;

pub const ARRIVAL_WORDS: usize = 4;

pub const SCRATCH_WORDS: usize = 32;

pub const MOST_PROCESSES: usize = 16;

// The state of the largest team.
pub const STATE_WORDS: usize = PROCESS_WORDS * MOST_PROCESSES;

// Where slot i of a gathered area stands.
pub fn slot_at(area: usize, i: usize) -> usize
    requires { (area < gathered_areas) × (i < area_slots) }
    ensures { result ≡ gathered_at + gathered_slot area i }
{
    GATHERED_AT + AREA_SLOTS * area + i
}

fn sizes() -> [usize; 11]
    ensures { result ≡ variable_places ∷ gathered_areas ∷ area_slots ∷ gathered_places ∷ doors ∷ latch_places ∷ stack_places
        ∷ most_table_bytes ∷ arrival_size ∷ scratch_words ∷ most_processes ∷ [] }
{
    [
        VARIABLE_PLACES,
        GATHERED_AREAS,
        AREA_SLOTS,
        GATHERED_PLACES,
        DOOR_PLACES,
        LATCH_PLACES,
        STACK_PLACES,
        MOST_TABLE_BYTES,
        ARRIVAL_WORDS,
        SCRATCH_WORDS,
        MOST_PROCESSES,
    ]
}

fn offsets() -> [usize; 6]
    ensures { result ≡ gathered_at ∷ doors_at ∷ latches_at ∷ depth_at ∷ stack_at ∷ process_words ∷ [] }
{
    [
        GATHERED_AT,
        DOORS_AT,
        LATCHES_AT,
        DEPTH_AT,
        STACK_AT,
        PROCESS_WORDS,
    ]
}
