// Resolved trees as texts: words with a blank between them. A type is `#n`, a field `#n.p:kind` by the number of its
// type and its place there, a field of the object's own type or of assets `.p:kind`, a value of an addition stands behind the kind
// that it must fit, a visible name is `@k`, and units are `nu`.
use eb_base::{AuthorNo, Memory, TypeNo};
use eb_rule_text::{Link, Op, Reach};
use eb_rules::{
    Addition, Aim, AuthoredField, BakerPlan, ComponentField, FieldPlace, FindTerm, JobPlan, Order,
    Query3, ReadTerm, RulesPlan, Step, SystemPlan, Term,
};
use eb_schema::Kind;
use std::alloc::Global;

fn put(out: &mut Vec<u8>, word: &str) -> Result<(), Memory> {
    if !out.is_empty() {
        out.push(b' ')?;
    }
    out.extend_from_slice(word.as_bytes())?;
    Ok(())
}

fn put_int(alloc: Global, out: &mut Vec<u8>, number: i64) -> Result<(), Memory> {
    let word = format!(in alloc; "{number}")?;
    put(out, word.as_str())
}

fn put_units(alloc: Global, out: &mut Vec<u8>, units: i64) -> Result<(), Memory> {
    let word = format!(in alloc; "{units}u")?;
    put(out, word.as_str())
}

fn kind_word(kind: Kind) -> &'static str {
    match kind {
        Kind::I8 => "i8",
        Kind::I16 => "i16",
        Kind::I32 => "i32",
        Kind::I64 => "i64",
        Kind::Fix => "fix",
        Kind::Ref => "ref",
        Kind::Asset => "asset",
    }
}

fn put_place(alloc: Global, out: &mut Vec<u8>, field: FieldPlace) -> Result<(), Memory> {
    let word = format!(in alloc; ".{0}:{1}", field.place, kind_word(field.kind))?;
    put(out, word.as_str())
}

fn put_name(alloc: Global, out: &mut Vec<u8>, position: usize) -> Result<(), Memory> {
    let word = format!(in alloc; "@{position}")?;
    put(out, word.as_str())
}

fn put_type(alloc: Global, out: &mut Vec<u8>, number: u8) -> Result<(), Memory> {
    let word = format!(in alloc; "#{number}")?;
    put(out, word.as_str())
}

fn put_field(
    alloc: Global,
    out: &mut Vec<u8>,
    number: u8,
    field: FieldPlace,
) -> Result<(), Memory> {
    let word = format!(in alloc; "#{number}.{0}:{1}", field.place, kind_word(field.kind))?;
    put(out, word.as_str())
}

fn put_component(alloc: Global, out: &mut Vec<u8>, field: ComponentField) -> Result<(), Memory> {
    put_field(alloc, out, field.kind.number(), field.field)
}

// A word, and a field of an authoring type behind it.
fn put_authored(
    alloc: Global,
    out: &mut Vec<u8>,
    word: &str,
    field: AuthoredField,
) -> Result<(), Memory> {
    put(out, word)?;
    put_field(alloc, out, field.kind.number(), field.field)
}

// `sum children`, or `sum within`, and a field behind it.
fn put_reached(
    alloc: Global,
    out: &mut Vec<u8>,
    word: &str,
    over: Reach,
    field: AuthoredField,
) -> Result<(), Memory> {
    put(out, word)?;
    put_authored(alloc, out, reach_word(over), field)
}

fn reach_word(over: Reach) -> &'static str {
    match over {
        Reach::Children => "children",
        Reach::Within => "within",
    }
}

fn put_count(alloc: Global, out: &mut Vec<u8>, over: Reach, kind: AuthorNo) -> Result<(), Memory> {
    put(out, "count")?;
    put(out, reach_word(over))?;
    put_type(alloc, out, kind.number())
}

fn put_asset(
    alloc: Global,
    out: &mut Vec<u8>,
    link: FieldPlace,
    field: FieldPlace,
) -> Result<(), Memory> {
    put(out, "asset")?;
    put_place(alloc, out, link)?;
    put_place(alloc, out, field)
}

fn put_at(
    alloc: Global,
    out: &mut Vec<u8>,
    link: ComponentField,
    field: ComponentField,
) -> Result<(), Memory> {
    put(out, "at")?;
    put_component(alloc, out, link)?;
    put_component(alloc, out, field)
}

fn put_all(
    alloc: Global,
    out: &mut Vec<u8>,
    word: &str,
    field: ComponentField,
) -> Result<(), Memory> {
    put(out, word)?;
    put_component(alloc, out, field)
}

fn put_find(alloc: Global, out: &mut Vec<u8>, find: FindTerm) -> Result<(), Memory> {
    match find {
        FindTerm::Own(field) => put_authored(alloc, out, "own", field),
        FindTerm::Parent(field) => put_authored(alloc, out, "parent", field),
        FindTerm::Asset(link, field) => put_asset(alloc, out, link, field),
        FindTerm::Min(over, field) => put_reached(alloc, out, "min", over, field),
        FindTerm::Max(over, field) => put_reached(alloc, out, "max", over, field),
        FindTerm::At(link, field) => put_at(alloc, out, link, field),
        FindTerm::MaxAll(field) => put_all(alloc, out, "max_all", field),
    }
}

fn put_finds(alloc: Global, out: &mut Vec<u8>, finds: &[FindTerm]) -> Result<(), Memory> {
    for find in finds {
        put_find(alloc, out, *find)?;
        put(out, "or")?;
    }
    Ok(())
}

fn put_read(alloc: Global, out: &mut Vec<u8>, read: ReadTerm) -> Result<(), Memory> {
    match read {
        ReadTerm::This(place) => put_place(alloc, out, place),
        ReadTerm::Field(field) => put_component(alloc, out, field),
        ReadTerm::Sum(over, field) => put_reached(alloc, out, "sum", over, field),
        ReadTerm::Count(over, kind) => put_count(alloc, out, over, kind),
        ReadTerm::SumAll(field) => put_all(alloc, out, "sum_all", field),
        ReadTerm::CountAll(kind) => {
            put(out, "count_all")?;
            put_type(alloc, out, kind.number())
        }
        ReadTerm::Entity => put(out, "entity"),
        ReadTerm::EntityAt(place) => {
            put(out, "entity")?;
            put_place(alloc, out, place)
        }
    }
}

fn op_word(op: Op) -> &'static str {
    match op {
        Op::Either => "||",
        Op::And => "&&",
        Op::Equal => "==",
        Op::NotEqual => "!=",
        Op::Less => "<",
        Op::AtMost => "<=",
        Op::Greater => ">",
        Op::AtLeast => ">=",
        Op::Plus => "+",
        Op::Minus => "-",
        Op::Times => "*",
        Op::Over => "/",
    }
}

// A chain stands in parentheses, whatever stood in the text.
#[cycle(showing)]
fn put_term(alloc: Global, out: &mut Vec<u8>, term: &Term) -> Result<(), Memory> {
    match term {
        Term::Int(number) => put_int(alloc, out, *number),
        Term::Fix(units) => put_units(alloc, out, *units),
        Term::True => put(out, "true"),
        Term::False => put(out, "false"),
        Term::Null => put(out, "null"),
        Term::Name(position) => put_name(alloc, out, *position),
        Term::ToFix(inner) => put_behind(alloc, out, "fix", inner.get()),
        Term::ToInt(inner) => put_behind(alloc, out, "int", inner.get()),
        Term::Read(read) => put_read(alloc, out, *read),
        Term::Find(finds, last) => {
            put_finds(alloc, out, finds.as_slice())?;
            put_term(alloc, out, last.get())
        }
        Term::Negate(operand) => put_behind(alloc, out, "-", operand.get()),
        Term::Not(operand) => put_behind(alloc, out, "!", operand.get()),
        Term::Chain(first, more) => {
            put_behind(alloc, out, "(", first.get())?;
            put_links(alloc, out, more.as_slice())
        }
    }
}

#[cycle(showing)]
fn put_behind(alloc: Global, out: &mut Vec<u8>, word: &str, term: &Term) -> Result<(), Memory> {
    put(out, word)?;
    put_term(alloc, out, term)
}

#[cycle(showing)]
fn put_links(alloc: Global, out: &mut Vec<u8>, links: &[Link<Term>]) -> Result<(), Memory> {
    for link in links {
        put_behind(alloc, out, op_word(link.op), &link.right)?;
    }
    put(out, ")")
}

// A type and the values of its fields.
fn put_addition(alloc: Global, out: &mut Vec<u8>, addition: &Addition) -> Result<(), Memory> {
    put_type(alloc, out, addition.kind.number())?;
    put(out, "{")?;
    for filling in addition.values.as_slice() {
        put(out, kind_word(filling.kind))?;
        put_term(alloc, out, &filling.value)?;
    }
    put(out, "}")
}

fn put_extra(
    alloc: Global,
    out: &mut Vec<u8>,
    number: usize,
    additions: &[Addition],
) -> Result<(), Memory> {
    let word = format!(in alloc; "extra{number}")?;
    put(out, word.as_str())?;
    for addition in additions {
        put_addition(alloc, out, addition)?;
    }
    put(out, ";")
}

#[cycle(stepping)]
fn put_step(alloc: Global, out: &mut Vec<u8>, step: &Step) -> Result<(), Memory> {
    match step {
        Step::Let(value) => {
            put(out, "let")?;
            put_term(alloc, out, value)
        }
        Step::Add(addition) => put_addition(alloc, out, addition),
        Step::Extra(number, additions) => put_extra(alloc, out, *number, additions.as_slice()),
        Step::If(test, body, other) => {
            put(out, "if")?;
            put_term(alloc, out, test)?;
            put_block(alloc, out, body.as_slice())?;
            put_block(alloc, out, other.as_slice())
        }
    }
}

#[cycle(stepping)]
fn put_block(alloc: Global, out: &mut Vec<u8>, steps: &[Step]) -> Result<(), Memory> {
    put(out, "[")?;
    for step in steps {
        put_step(alloc, out, step)?;
    }
    put(out, "]")
}

fn put_types(
    alloc: Global,
    out: &mut Vec<u8>,
    word: &str,
    numbers: &[TypeNo],
) -> Result<(), Memory> {
    put(out, word)?;
    for number in numbers {
        put_type(alloc, out, number.number())?;
    }
    Ok(())
}

fn put_query(alloc: Global, out: &mut Vec<u8>, query: &Query3) -> Result<(), Memory> {
    put_types(alloc, out, "all", query.all.items())?;
    put_types(alloc, out, "any", query.any.items())?;
    put_types(alloc, out, "none", query.none.items())
}

fn put_baker(alloc: Global, out: &mut Vec<u8>, baker: &BakerPlan) -> Result<(), Memory> {
    let word = format!(in alloc; "baker{0}", baker.number)?;
    put(out, word.as_str())?;
    put_type(alloc, out, baker.authoring.number())?;
    put_block(alloc, out, baker.body.as_slice())
}

fn put_system(alloc: Global, out: &mut Vec<u8>, system: &SystemPlan) -> Result<(), Memory> {
    let word = format!(in alloc; "system{0}", system.number)?;
    put(out, word.as_str())?;
    put_query(alloc, out, &system.query)?;
    put_block(alloc, out, system.body.as_slice())
}

/// All rules: the bakers and then the systems, by their numbers.
pub fn put_rules(alloc: Global, out: &mut Vec<u8>, plan: &RulesPlan) -> Result<(), Memory> {
    for slot in plan.bakers.items() {
        if let Some(baker) = slot {
            put_baker(alloc, out, baker)?;
        }
    }
    for slot in plan.systems.items() {
        if let Some(system) = slot {
            put_system(alloc, out, system)?;
        }
    }
    Ok(())
}

fn put_aim(alloc: Global, out: &mut Vec<u8>, word: &str, aim: Aim) -> Result<(), Memory> {
    put(out, word)?;
    match aim {
        Aim::This => put(out, "this"),
        Aim::Created(position) => put_name(alloc, out, position),
        Aim::At(link) => put_all(alloc, out, "at", link),
    }
}

fn put_order(alloc: Global, out: &mut Vec<u8>, order: &Order) -> Result<(), Memory> {
    match order {
        Order::Create => put(out, "create"),
        Order::Destroy(aim) => put_aim(alloc, out, "destroy", *aim),
        Order::Remove(aim, kind) => {
            put_aim(alloc, out, "remove", *aim)?;
            put_type(alloc, out, kind.number())
        }
        Order::Add(aim, filled) => {
            put_aim(alloc, out, "add", *aim)?;
            put_addition(alloc, out, filled)
        }
        Order::Set(aim, filled) => {
            put_aim(alloc, out, "set", *aim)?;
            put_addition(alloc, out, filled)
        }
    }
}

/// A job.
pub fn put_job(alloc: Global, out: &mut Vec<u8>, plan: &JobPlan) -> Result<(), Memory> {
    put_query(alloc, out, &plan.query)?;
    put(out, "key")?;
    put_term(alloc, out, &plan.key)?;
    for order in plan.orders.as_slice() {
        put_order(alloc, out, order)?;
    }
    Ok(())
}
