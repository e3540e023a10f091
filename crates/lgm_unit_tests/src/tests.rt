mod bounds;
mod graph;
mod memory;
mod par;
mod payload;
mod route;
mod script;
mod seeds;
