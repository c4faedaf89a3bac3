// A schema whose types have fields of each width, and the layouts of its sets of types.
use eb_base::TypeNo;
use eb_schema::{Layout, Schema, TypeSet};
use serde_json::Value;
use std::alloc::Global;

/// Type 1 has one number and type 4 another, type 5 a field of each kind, 7 and 8 have sixteen references each, and 9 has
/// thirteen numbers.
const SCHEMA: &str = concat!(
    r#"{"assets":[],"authoring":[],"components":["#,
    r#"{"fields":[["v","i64"]],"mode":"stored","name":"Value","number":1},"#,
    r#"{"fields":[["hp","i64"]],"mode":"stored","name":"Hp","number":4},"#,
    r#"{"fields":[["a","i8"],["b","i16"],["c","i32"],["d","i64"],["e","fix"],["f","ref"]],"mode":"stored","name":"Each","number":5},"#,
    r#"{"fields":[["f0","ref"],["f1","ref"],["f2","ref"],["f3","ref"],["f4","ref"],["f5","ref"],["f6","ref"],["f7","ref"],"#,
    r#"["f8","ref"],["f9","ref"],["f10","ref"],["f11","ref"],["f12","ref"],["f13","ref"],["f14","ref"],["f15","ref"]],"#,
    r#""mode":"stored","name":"Wide1","number":7},"#,
    r#"{"fields":[["f0","ref"],["f1","ref"],["f2","ref"],["f3","ref"],["f4","ref"],["f5","ref"],["f6","ref"],["f7","ref"],"#,
    r#"["f8","ref"],["f9","ref"],["f10","ref"],["f11","ref"],["f12","ref"],["f13","ref"],["f14","ref"],["f15","ref"]],"#,
    r#""mode":"stored","name":"Wide2","number":8},"#,
    r#"{"fields":[["f0","i64"],["f1","i64"],["f2","i64"],["f3","i64"],["f4","i64"],["f5","i64"],["f6","i64"],["f7","i64"],"#,
    r#"["f8","i64"],["f9","i64"],["f10","i64"],["f11","i64"],["f12","i32"]],"mode":"stored","name":"Wide3","number":9}"#,
    "]}"
);

/// The schema.
pub fn schema(alloc: Global) -> Option<Schema> {
    let document = Value::from_str(alloc, SCHEMA).ok()?;
    Schema::read(alloc, &document).ok()
}

/// The set of the types of these numbers.
pub fn types(alloc: Global, numbers: &[u8]) -> Option<TypeSet> {
    let mut kinds = Vec::new(alloc);
    for number in numbers {
        kinds.push(TypeNo::new(*number)?).ok()?;
    }
    TypeSet::of(alloc, &kinds).ok()
}

/// The layout of the types of these numbers.
pub fn layout(alloc: Global, numbers: &[u8]) -> Option<Layout> {
    let schema = schema(alloc)?;
    let types = types(alloc, numbers)?;
    Layout::of(alloc, &schema, &types).ok()
}
