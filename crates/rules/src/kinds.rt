// The numbers of kinds and of statuses, each once in the code and once in the definitions: specs/Table.antt (expression_of,
// statement_of and the bounds of kinds) and Arrivals.antt. The functions below hold the two to each other.
ghost use Rattle.std.specs.Prelude.{◌∷◌, [], map, ◌≡◌, ℕ, ◌+◌, ◌*◌};
ghost use Rattle.rules.specs.Arrivals.{running, waiting, ended};
ghost use Rattle.rules.specs.Table.{last_expression, first_statement, last_statement, expression_of, statement_of};
ghost use Rattle.rules.specs.Table.{constant, variable, own_number, process_count, door, slot, operation};
ghost use Rattle.rules.specs.Table.{sum, difference, product, quotient, less, equal, both};
ghost use Rattle.rules.specs.Table.{nothing, assign, sequence, branch, loop, call, latch, collective, leave};
ghost use Rattle.rules.specs.Table.{barrier, broadcast, exchange};

// "Expressions"
pub const CONSTANT: u32 = 0;

pub const VARIABLE: u32 = 1;

pub const OWN_NUMBER: u32 = 2;

pub const PROCESS_COUNT: u32 = 3;

pub const DOOR: u32 = 4;

pub const SLOT: u32 = 5;

pub const SUM: u32 = 6;

pub const DIFFERENCE: u32 = 7;

pub const PRODUCT: u32 = 8;

pub const QUOTIENT: u32 = 9;

pub const LESS: u32 = 10;

pub const EQUAL: u32 = 11;

pub const BOTH: u32 = 12;

// "Statements"
pub const NOTHING: u32 = 16;

pub const ASSIGN: u32 = 17;

pub const SEQUENCE: u32 = 18;

pub const BRANCH: u32 = 19;

pub const LOOP: u32 = 20;

pub const CALL: u32 = 21;

pub const LATCH: u32 = 22;

pub const BARRIER: u32 = 23;

pub const BROADCAST: u32 = 24;

pub const EXCHANGE: u32 = 25;

pub const LEAVE: u32 = 26;

// The bounds of kinds.
pub const LAST_EXPRESSION: u32 = BOTH;

pub const FIRST_STATEMENT: u32 = NOTHING;

pub const LAST_STATEMENT: u32 = LEAVE;

// "status (running, waiting or ended)", in the word that the roll has for it.
pub const RUNNING: u32 = 0;

pub const WAITING: u32 = 1;

pub const ENDED: u32 = 2;

fn expressions() -> [u32; 13]
    ensures { (a b c : ℕ) → map (λ k. expression_of (record { kind = k; a = a; b = b; c = c })) result
        ≡ constant (b * 512 + c) ∷ variable a ∷ own_number ∷ process_count ∷ door a ∷ slot a b
        ∷ operation sum a b ∷ operation difference a b ∷ operation product a b ∷ operation quotient a b
        ∷ operation less a b ∷ operation equal a b ∷ operation both a b ∷ [] }
{
    [
        CONSTANT,
        VARIABLE,
        OWN_NUMBER,
        PROCESS_COUNT,
        DOOR,
        SLOT,
        SUM,
        DIFFERENCE,
        PRODUCT,
        QUOTIENT,
        LESS,
        EQUAL,
        BOTH,
    ]
}

fn statements() -> [u32; 11]
    ensures { (a b c : ℕ) → map (λ k. statement_of (record { kind = k; a = a; b = b; c = c })) result
        ≡ nothing ∷ assign a b ∷ sequence a b ∷ branch a b c ∷ loop a b ∷ call a ∷ latch a b
        ∷ collective barrier ∷ collective (broadcast a b c) ∷ collective (exchange a b) ∷ leave ∷ [] }
{
    [
        NOTHING, ASSIGN, SEQUENCE, BRANCH, LOOP, CALL, LATCH, BARRIER, BROADCAST, EXCHANGE, LEAVE,
    ]
}

fn bounds() -> [u32; 3]
    ensures { result ≡ last_expression ∷ first_statement ∷ last_statement ∷ [] }
{
    [LAST_EXPRESSION, FIRST_STATEMENT, LAST_STATEMENT]
}

fn statuses() -> [u32; 3]
    ensures { result ≡ running ∷ waiting ∷ ended ∷ [] }
{
    [RUNNING, WAITING, ENDED]
}
