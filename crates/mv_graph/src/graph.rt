//! The graph of a procedure: its statements, and how they may depend on one another.

ghost use Rattle.std.specs.Prelude.{◌≡◌, ◌==◌};
ghost use Rattle.std.specs.List.{list_any};
ghost use Rattle.std.specs.Option.{option_copied};
ghost use Rattle.mv_graph.specs.Nodes.{is_read_only};
ghost use Rattle.mv_graph.specs.Edges.{is_number, is_one_of, node_at, has_common, comes_to, edges, edges_of};

use mv_catalog::resolved::{ProcInfo, RStmt};
use mv_values::list::List;
use mv_values::schema::TableInfo;
use mv_values::tested::Tested;

/// The keyword that a statement begins with.
#[derive(Clone, Copy)]
pub enum Keyword {
    Set,
    Select,
    For,
    If,
    Insert,
    Update,
    Delete,
    Print,
    Rollback,
}

/// A statement of the text. Statements count from 1 through the text of the procedure, tables from 0. Variables have
/// their numbers in the procedure.
#[derive(Drop)]
pub struct Node {
    pub keyword: Keyword,
    /// The IF or FOR that directly holds it, if any.
    pub parent: Option<u16>,
    /// The FORs that hold it, the outermost first.
    pub loops: List<u16>,
    /// The variables in its own expressions, parameters excluded.
    pub reads: List<u16>,
    /// The variables that it may set, `:found` and the row of a FOR included.
    pub sets: List<u16>,
    /// The table that it changes, if any.
    pub changes: Option<u16>,
    /// The tables of its predicates, its own table first.
    pub asks: List<u16>,
    /// The number of statements: itself and those that it holds. The statement after them has its number plus this.
    pub size: u16,
}

/// A statement of the text as a running call needs it: itself, and where the statements inside it and after it are.
#[derive(Drop)]
pub struct Step {
    /// The statement without those that it holds.
    pub statement: RStmt,
    /// The variables in its own expressions, parameters excluded.
    pub reads: List<u16>,
    /// The number of statements: itself and those that it holds.
    pub size: u16,
    /// What the number of the first statement of its ELSE is more than its own. It is 1 for all but an IF.
    pub skip: u16,
    /// The number of statements from it on to the end of its list, with those that they hold.
    pub left: u16,
}

/// A procedure as a graph. It means what the procedure means over the tables.
#[derive(Drop)]
pub struct Graph {
    /// The tables that its statements name.
    pub tables: List<TableInfo>,
    /// The procedure: its variables with their initial values, and its statements.
    pub procedure: ProcInfo,
    /// A node for each statement, in the order of the text.
    pub nodes: List<Node>,
    /// A step for each statement, in the order of the text.
    pub steps: List<Step>,
    /// The columns that a WHERE of the procedure tests with `=`, each once, in the order of the text.
    pub tested: List<Tested>,
}

/// How a statement may depend on another: the other directly holds it, sets a variable that it reads, or changes a table
/// that it asks.
#[derive(Clone, Copy, PartialEq, Eq)]
pub struct Edges {
    pub control: bool,
    pub variable: bool,
    pub table: bool,
}

/// Whether there is a number and it is this one.
fn is_number(it: Option<u16>, number: u16) -> bool
    ensures { result ≡ is_number it number }
{
    match it {
        None => false,
        Some(other) => other == number,
    }
}

/// Whether the number is one of these.
fn has(numbers: &[u16], number: u16) -> bool
    ensures { result ≡ list_any (λ n. n == number) numbers.now }
{
    numbers.iter().any(|n| *n == number)
}

/// Whether there is a number and it is one of these.
fn is_one_of(number: Option<u16>, numbers: &[u16]) -> bool
    ensures { result ≡ is_one_of number numbers.now }
{
    match number {
        None => false,
        Some(number) => has(numbers, number),
    }
}

/// Whether the lists have a number in common. Takes time proportional to the product of their lengths.
fn has_common(left: &[u16], right: &[u16]) -> bool
    ensures { result ≡ has_common left.now right.now }
{
    left.iter().any(|n| has(right, *n))
}

/// Whether what statement `from` does can reach statement `to`: `from` is earlier in the text, or one FOR holds both.
fn comes_to(from: u16, earlier: &Node, to: u16, later: &Node) -> bool
    ensures { result ≡ comes_to from earlier.now to later.now }
{
    from < to || has_common(earlier.loops.as_slice(), later.loops.as_slice())
}

impl Graph {
    /// Whether the procedure is READ ONLY. Then no call of it changes a table.
    pub fn read_only(&self) -> bool
        ensures { result ≡ is_read_only self.now }
    {
        self.procedure.read_only
    }

    /// Returns the statement with this number, counted from 1.
    fn node(&self, number: u16) -> Option<&Node>
        ensures { option_copied result ≡ node_at self.now number }
    {
        match number.checked_sub(1) {
            None => None,
            Some(place) => self.nodes.as_slice().get(place as usize),
        }
    }

    /// Borrows the columns that a WHERE of the procedure tests with `=`, each once, in the order of the text.
    pub fn tested(&self) -> &[Tested]
        ensures { result.now ≡ self.now.tested }
    {
        self.tested.as_slice()
    }

    /// Returns how statement `to` may depend on statement `from`, both counted from 1. There are no edges if either
    /// statement doesn't exist. Allocates nothing. Takes time proportional to the products of the lengths of the nodes'
    /// lists.
    pub fn edge(&self, from: u16, to: u16) -> Edges
        ensures { result ≡ edges self.now from to }
    {
        match (self.node(from), self.node(to)) {
            (Some(earlier), Some(later)) => edges_between(from, earlier, to, later),
            _ => Edges {
                control: false,
                variable: false,
                table: false,
            },
        }
    }
}

/// Returns how a statement may depend on another, by their numbers and nodes.
fn edges_between(from: u16, earlier: &Node, to: u16, later: &Node) -> Edges
    ensures { result ≡ edges_of from earlier.now to later.now }
{
    let reached = comes_to(from, earlier, to, later);
    Edges {
        control: is_number(later.parent, from),
        variable: reached && has_common(earlier.sets.as_slice(), later.reads.as_slice()),
        table: reached && is_one_of(earlier.changes, later.asks.as_slice()),
    }
}
