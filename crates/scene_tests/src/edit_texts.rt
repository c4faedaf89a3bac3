// Edits of small projects: objects 3 and 4 below 5, and 6 below 4, where 6 has a gun; and an asset.

/// Assets with a power, and guns with a model and a rank.
pub const ARMS: &str =
    r#"{"assets":[["power","i32"]],"authoring":[{"copy":null,"fields":[["model","asset"],["rank","i32"]],"name":"Gun","number":1}],"components":[]}"#;

pub const SCENE: &str = r#"{"do":"add_scene","scene":1}"#;

pub const NO_SCENE: &str = r#"{"do":"remove_scene","scene":1}"#;

pub const OBJECT_5: &str =
    r#"{"do":"add_object","object":5,"parent":null,"scene":1,"section":null}"#;

pub const OBJECT_4: &str = r#"{"do":"add_object","object":4,"parent":5,"scene":1,"section":null}"#;

pub const OBJECT_3: &str = r#"{"do":"add_object","object":3,"parent":5,"scene":1,"section":null}"#;

pub const OBJECT_6: &str = r#"{"do":"add_object","object":6,"parent":4,"scene":1,"section":null}"#;

pub const NO_OBJECT_4: &str = r#"{"do":"remove_object","object":4,"scene":1}"#;

pub const OBJECT_6_BELOW_3: &str = r#"{"do":"set_parent","object":6,"parent":3,"scene":1}"#;

pub const MARK_63: &str = r#"{"do":"set_section","object":4,"scene":1,"section":63}"#;

pub const GUN: &str =
    r#"{"do":"put_component","fields":{"model":2,"rank":3},"kind":"Gun","object":6,"scene":1}"#;

pub const RANK: &str =
    r#"{"do":"set_field","field":"rank","kind":"Gun","object":6,"scene":1,"value":4}"#;

pub const NO_GUN: &str = r#"{"do":"remove_component","kind":"Gun","object":6,"scene":1}"#;

pub const ASSET_2: &str = r#"{"asset":2,"do":"put_asset","fields":{"power":7}}"#;

pub const POWER_OF_2: &str = r#"{"asset":2,"do":"set_asset_field","field":"power","value":8}"#;

pub const NO_ASSET_2: &str = r#"{"asset":2,"do":"remove_asset"}"#;

pub const FAMILY: [&str; 5] = [SCENE, OBJECT_5, OBJECT_4, OBJECT_3, OBJECT_6];

pub const ARMED: [&str; 6] = [SCENE, OBJECT_5, OBJECT_4, OBJECT_3, OBJECT_6, GUN];

pub const EQUIPPED: [&str; 3] = [SCENE, ASSET_2, POWER_OF_2];
