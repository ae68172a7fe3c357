mod freeing;
mod points;
mod search;
mod shrink;
mod subtree;
