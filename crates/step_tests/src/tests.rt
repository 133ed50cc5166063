mod alike;
mod attempts;
mod plain;
mod verdicts;
