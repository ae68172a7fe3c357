mod delete;
mod insert;
mod two_trees;
