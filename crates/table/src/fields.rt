// Questions 6 to 10 of one procedure or node.
ghost use Rattle.std.specs.Prelude.{◌≡◌, ◌<◌};
ghost use Rattle.rules.specs.Table.{decode, body};
ghost use Rattle.rules.specs.WellFormed.{procedure_fits, is_expression, is_statement, kind_known, unnamed_zero};
ghost use Rattle.rules.specs.WellFormed.{expression_part, statement_part, node_fits};
ghost use Rattle.table.specs.Roles.{roles_of, is_part, field_zero, field_fits};

use crate::Table;
use crate::words::word;
use rules::Node;
use rules::kinds::{
    ASSIGN, BOTH, BRANCH, BROADCAST, CALL, CONSTANT, DIFFERENCE, DOOR, EQUAL, EXCHANGE,
    FIRST_STATEMENT, LAST_EXPRESSION, LAST_STATEMENT, LATCH, LESS, LOOP, PRODUCT, QUOTIENT,
    SEQUENCE, SLOT, SUM, VARIABLE,
};
use rules::layout::GATHERED_AREAS;

// What a field of a node stands for. Half of a constant may be any number.
#[derive(Clone, Copy, Debug, PartialEq, Eq)]
pub enum Role {
    Unnamed,
    Variable,
    Expression,
    Statement,
    Procedure,
    Half,
    Area,
}

// The roles of the fields A, B, C of a kind.
#[derive(Clone, Copy, Debug, PartialEq, Eq)]
pub struct Roles {
    pub a: Role,
    pub b: Role,
    pub c: Role,
}

// The fields of an unknown kind stand for nothing.
pub fn roles_of(kind: u32) -> Roles
    ensures { result ≡ roles_of kind }
{
    let (a, b, c) = match kind {
        CONSTANT => (Role::Unnamed, Role::Half, Role::Half),
        VARIABLE => (Role::Variable, Role::Unnamed, Role::Unnamed),
        DOOR => (Role::Expression, Role::Unnamed, Role::Unnamed),
        SLOT | EXCHANGE => (Role::Expression, Role::Area, Role::Unnamed),
        SUM | DIFFERENCE | PRODUCT | QUOTIENT | LESS | EQUAL | BOTH | LATCH => {
            (Role::Expression, Role::Expression, Role::Unnamed)
        }
        ASSIGN => (Role::Variable, Role::Expression, Role::Unnamed),
        SEQUENCE => (Role::Statement, Role::Statement, Role::Unnamed),
        BRANCH => (Role::Expression, Role::Statement, Role::Statement),
        LOOP => (Role::Expression, Role::Statement, Role::Unnamed),
        CALL => (Role::Procedure, Role::Unnamed, Role::Unnamed),
        BROADCAST => (Role::Variable, Role::Expression, Role::Expression),
        _ => (Role::Unnamed, Role::Unnamed, Role::Unnamed),
    };
    Roles { a, b, c }
}

// Whether a role is that of a part.
pub fn is_part(role: Role) -> bool
    ensures { result ≡ is_part role }
{
    matches!(role, Role::Expression | Role::Statement)
}

pub fn field_zero(role: Role, value: u32) -> bool
    ensures { result ≡ field_zero role value }
{
    match role {
        Role::Unnamed => value == 0,
        _ => true,
    }
}

// Question 8.
#[tactic(auto, using(crate::proofs::RoleLaws::zero_law))]
pub fn unnamed_zero(node: Node) -> bool
    ensures { result ≡ unnamed_zero node }
{
    let roles = roles_of(node.kind);
    field_zero(roles.a, node.a) && field_zero(roles.b, node.b) && field_zero(roles.c, node.c)
}

impl Table<'_> {
    // Question 6.
    pub fn procedure_fits(&self, p: usize) -> bool
        requires { p < self.now.header.procedures }
        ensures { result ≡ procedure_fits self.now.bytes.now p }
    {
        word(self.bytes, 2 + p) % 8388608 == 0 && self.body(p) < self.header.nodes
    }

    pub fn is_expression(&self, n: usize) -> bool
        requires { n < self.now.header.nodes }
        ensures { result ≡ is_expression (decode self.now.bytes.now) n }
    {
        self.node_at(n).kind <= LAST_EXPRESSION
    }

    #[tactic(auto, unfolding(rules::specs::WellFormed::is_statement))]
    pub fn is_statement(&self, n: usize) -> bool
        requires { n < self.now.header.nodes }
        ensures { result ≡ is_statement (decode self.now.bytes.now) n }
    {
        matches!(self.node_at(n).kind, FIRST_STATEMENT..=LAST_STATEMENT)
    }

    // The same of any number: a node past the last is no statement.
    pub fn names_statement(&self, n: usize) -> bool
        ensures { result ≡ is_statement (decode self.now.bytes.now) n }
    {
        n < self.header.nodes && self.is_statement(n)
    }

    // Question 7.
    #[tactic(auto, unfolding(rules::specs::WellFormed::kind_known))]
    pub fn kind_known(&self, n: usize) -> bool
        requires { n < self.now.header.nodes }
        ensures { result ≡ kind_known (decode self.now.bytes.now) n }
    {
        self.is_expression(n) || self.is_statement(n)
    }

    #[tactic(auto, unfolding(rules::specs::WellFormed::expression_part))]
    fn expression_part(&self, n: usize, a: usize) -> bool
        requires { n < self.now.header.nodes }
        ensures { result ≡ expression_part (decode self.now.bytes.now) n a }
    {
        a < n && self.is_expression(a)
    }

    #[tactic(auto, unfolding(rules::specs::WellFormed::statement_part))]
    fn statement_part(&self, n: usize, a: usize) -> bool
        requires { n < self.now.header.nodes }
        ensures { result ≡ statement_part (decode self.now.bytes.now) n a }
    {
        a < n && self.is_statement(a)
    }

    pub fn field_fits(&self, n: usize, role: Role, value: usize) -> bool
        requires { n < self.now.header.nodes }
        ensures { result ≡ field_fits (decode self.now.bytes.now) n role value }
    {
        match role {
            Role::Variable => value < self.header.variables,
            Role::Expression => self.expression_part(n, value),
            Role::Statement => self.statement_part(n, value),
            Role::Procedure => value < self.header.procedures,
            Role::Area => value < GATHERED_AREAS,
            Role::Unnamed | Role::Half => true,
        }
    }

    // Question 9.
    #[tactic(auto, using(crate::proofs::RoleLaws::fits_law))]
    pub fn node_fits(&self, n: usize) -> bool
        requires { n < self.now.header.nodes }
        ensures { result ≡ node_fits (decode self.now.bytes.now) n }
    {
        let node = self.node_at(n);
        let roles = roles_of(node.kind);
        self.field_fits(n, roles.a, node.a as usize)
            && self.field_fits(n, roles.b, node.b as usize)
            && self.field_fits(n, roles.c, node.c as usize)
    }

    // Question 10.
    pub fn body_is_statement(&self, p: usize) -> bool
        requires { p < self.now.header.procedures }
        ensures { result ≡ is_statement (decode self.now.bytes.now) (body (decode self.now.bytes.now) p) }
    {
        self.names_statement(self.body(p))
    }
}
