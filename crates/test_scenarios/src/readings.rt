//! Tables and scripts as the library reads them. How they are read, and what is refused, is in examples/cases.
mod scripts;
mod shown;
mod shuffled_tables;
mod tables;
