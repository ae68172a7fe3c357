mod drawn;
mod expected;
mod faults;
mod nested;
mod tables;
