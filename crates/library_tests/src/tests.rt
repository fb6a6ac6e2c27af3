//! The tests, by the crate of which they are.

mod adapter;
mod announcements;
mod base;
mod cache;
mod conditions;
mod discovery;
mod fragments;
mod history;
mod info;
mod listeners;
mod matching;
mod notices;
mod owner;
mod readme;
mod rows;
mod sets;
mod setup;
mod trace;
mod wire;
mod world;
mod writer;
