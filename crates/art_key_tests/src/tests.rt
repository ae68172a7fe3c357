mod arrays;
mod joined;
mod keys;
mod memory;
