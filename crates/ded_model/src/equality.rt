//! When rows and tuples are equal, and what a hash of them is made of. What is equal is hashed alike.

mod atoms;
mod coefs;
mod rows;
mod tuples;
