mod events;
mod made;
mod parts;
mod script;
mod states;
