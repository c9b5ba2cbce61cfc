mod passage;
mod passage_source;
mod window;
