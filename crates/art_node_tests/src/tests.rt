mod beside;
mod mixed_calls;
mod names;
mod node;
mod sizes;
mod sort;
mod store;
