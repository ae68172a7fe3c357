mod callers;
mod iterator;
mod lookup;
mod names;
mod networks;
