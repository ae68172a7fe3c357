mod built;
mod collected;
mod hinted;
mod memory;
mod set;
mod set_parts;
mod snapshots;
mod texts;
