use plain_graph::Value;

/// A property: its key, by the number of its name, and its value.
#[derive(Drop)]
pub struct Prop {
    pub key: u32,
    pub value: Value,
}
