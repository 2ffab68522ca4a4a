//! Both files, recordings, and the devices round them.

mod devices;
mod edits;
mod faults;
mod reading;
mod refused;
mod seconds;
mod sharing;
mod text;
mod writing;
mod written_lines;
