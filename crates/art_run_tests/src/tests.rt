mod clones;
mod kept_keys;
mod minmax;
mod run;
