mod effect;
mod points;
mod refused;
mod rows;
mod search;
