/// What a function returns with each number of stored bytes that trees are tried with.
macro_rules! with_each {
    ($function:ident, $alloc:expr) => {
        [
            $function::<0>($alloc),
            $function::<2>($alloc),
            $function::<4>($alloc),
            $function::<16>($alloc),
        ]
    };
}

mod counts;
mod faults;
mod memory;
mod spoiled;
mod spoiling;
mod texts;
mod told;
mod verdicts;
mod visitors;
