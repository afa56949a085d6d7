mod given;
mod operators;
mod private;
mod requests;
