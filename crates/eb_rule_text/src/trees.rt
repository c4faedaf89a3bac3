// The syntax trees: one variant for each alternative of the grammar. They keep parentheses and names as they are written,
// and no places. Chains of operators and of reads with `or` are lists, so that no tree is deeper than its text opens levels.
// `docs/rules.md`, "Grammar".
use eb_base::Text;
use sqlite_items::{Boxed, Items};

/// In which of the three forms a statement or an expression stands, which says what it may be.
#[derive(Clone, Copy, Debug, PartialEq, Eq)]
pub enum Context {
    /// The body of a baker.
    Baker,
    /// The body of a system.
    System,
    /// A job: its key and its commands.
    Job,
}

/// `T.f`: a field of a type.
#[derive(Debug, Drop)]
pub struct FieldPath {
    /// The name of the type.
    pub kind: Text,
    /// The name of the field.
    pub field: Text,
}

/// Which objects a read of a baker goes over.
#[derive(Clone, Copy, Debug, PartialEq, Eq)]
pub enum Reach {
    /// `children(T)`: the object's children that have T.
    Children,
    /// `within(T)`: all objects below it that have T.
    Within,
}

/// A read that finds a value or nothing, and so goes on with `or`.
#[derive(Debug, Drop)]
pub enum Find {
    /// `own(T).f`, in a baker.
    Own(FieldPath),
    /// `parent(T).f`, in a baker.
    Parent(FieldPath),
    /// `asset(this.a).f`, in a baker: the names a and f.
    Asset(Text, Text),
    /// `min children(T).f` or `min within(T).f`, in a baker.
    Min(Reach, FieldPath),
    /// `max children(T).f` or `max within(T).f`, in a baker.
    Max(Reach, FieldPath),
    /// `at(this.T.r).U.g`, in a system or a job: T.r and U.g.
    At(FieldPath, FieldPath),
    /// `max all(T.f)`, in a system.
    MaxAll(FieldPath),
}

/// A read that always has a value.
#[derive(Debug, Drop)]
pub enum Read {
    /// `this.f`, in a baker.
    This(Text),
    /// `this.T.f`, in a system or a job.
    Field(FieldPath),
    /// `sum children(T).f` or `sum within(T).f`, in a baker.
    Sum(Reach, FieldPath),
    /// `count children(T)` or `count within(T)`, in a baker.
    Count(Reach, Text),
    /// `sum all(T.f)`, in a system.
    SumAll(FieldPath),
    /// `count all(T)`, in a system.
    CountAll(Text),
    /// `entity(this)`.
    Entity,
    /// `entity(this.r)`, in a baker.
    EntityAt(Text),
    /// `entity(x)`, in a baker for an extra x and in a job for a created x.
    EntityOf(Text),
}

/// An operator between two operands.
#[derive(Clone, Copy, Debug, PartialEq, Eq)]
pub enum Op {
    /// `||`
    Either,
    /// `&&`
    And,
    /// `==`
    Equal,
    /// `!=`
    NotEqual,
    /// `<`
    Less,
    /// `<=`
    AtMost,
    /// `>`
    Greater,
    /// `>=`
    AtLeast,
    /// `+`
    Plus,
    /// `-`
    Minus,
    /// `*`
    Times,
    /// `/`
    Over,
}

/// An operator and the operand behind it.
#[derive(Drop)]
pub struct Link<E> {
    pub op: Op,
    pub right: E,
}

/// An expression.
#[derive(Drop)]
pub enum Expr {
    /// A whole number, from 0 to 9223372036854775807.
    Int(i64),
    /// A number with a point, in units of 1/65536.
    Fix(i64),
    True,
    False,
    Null,
    /// A visible name.
    Name(Text),
    /// `(e)`
    Paren(Boxed<Expr>),
    /// `fix(e)`
    ToFix(Boxed<Expr>),
    /// `int(e)`
    ToInt(Boxed<Expr>),
    /// A read that always has a value.
    Read(Read),
    /// Reads each of which goes on with `or`, at least one, and what stands behind the last `or`.
    Find(Items<Find>, Boxed<Expr>),
    /// `-e`
    Negate(Boxed<Expr>),
    /// `!e`
    Not(Boxed<Expr>),
    /// Operands of one level of precedence with operators between them, at least one. A chain groups to the left, and one
    /// of a comparison has a single link.
    Chain(Boxed<Expr>, Items<Link<Expr>>),
}

/// `f: e`, the value of one field.
#[derive(Drop)]
pub struct Init {
    /// The name of the field.
    pub field: Text,
    pub value: Expr,
}

/// `add T { .. }` of a baker or a system.
#[derive(Drop)]
pub struct Add {
    /// The name of the component type.
    pub kind: Text,
    /// The values, in the order of the text.
    pub inits: Items<Init>,
}

/// A statement of a baker or a system.
#[derive(Drop)]
pub enum Stmt {
    /// `let x = e;`
    Let(Text, Expr),
    /// `add T { .. }`
    Add(Add),
    /// `extra x { add .. }`, in a baker.
    Extra(Text, Items<Add>),
    /// `if e { .. }`, and the statements of `else` where it is written.
    If(Expr, Items<Stmt>, Option<Items<Stmt>>),
}

/// The names behind `all`, `any` and `none`. A list is empty exactly where its word isn't written.
#[derive(Debug, Drop)]
pub struct Query {
    pub all: Items<Text>,
    pub any: Items<Text>,
    pub none: Items<Text>,
}

/// `baker n on T { .. }`
#[derive(Drop)]
pub struct Baker {
    /// The number as it is written, in range or not.
    pub number: i64,
    /// The name of the authoring type.
    pub authoring: Text,
    pub body: Items<Stmt>,
}

/// `system n .. { .. }`
#[derive(Drop)]
pub struct System {
    /// The number as it is written, in range or not.
    pub number: i64,
    pub query: Query,
    pub body: Items<Stmt>,
}

/// One rule.
#[derive(Drop)]
pub enum Rule {
    Baker(Baker),
    System(System),
}

/// A whole text of rules.
#[derive(Drop)]
pub struct RulesTree {
    /// The bakers and systems, in the order of the text.
    pub rules: Items<Rule>,
}

/// What a command acts on.
#[derive(Debug, Drop)]
pub enum Target {
    /// `this`
    This,
    /// A created name.
    Name(Text),
    /// `at(this.T.r)`
    At(FieldPath),
}

/// A command of a job.
#[derive(Drop)]
pub enum Command {
    /// `create x`
    Create(Text),
    /// `destroy target`
    Destroy(Target),
    /// `remove target T`
    Remove(Target, Text),
    /// `add target T { .. }`
    Add(Target, Text, Items<Init>),
    /// `set target T { .. }`
    Set(Target, Text, Items<Init>),
}

/// A whole text of a job: `job .. key e { .. }`
#[derive(Drop)]
pub struct JobTree {
    pub query: Query,
    pub key: Expr,
    /// The commands, in the order of the text.
    pub commands: Items<Command>,
}
