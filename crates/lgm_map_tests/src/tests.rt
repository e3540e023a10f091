mod beside;
mod comparing;
mod filters;
mod histories;
mod item;
mod made;
mod many;
mod plain;
