mod locality;
mod oracle;
mod parts;
mod refusals;
mod shapes;
mod trees;
