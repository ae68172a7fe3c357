mod against_oracle;
mod build;
mod by_list;
mod drawn;
mod pairs;
mod refused;
