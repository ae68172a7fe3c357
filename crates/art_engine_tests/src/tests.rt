mod bad_lines;
mod faults;
mod in_memory;
mod lines;
mod memory;
mod turns;
mod waits;
