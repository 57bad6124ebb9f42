//! A table of books in three scripts, at a width of 44 terminal columns.

use comfy_table::{ColumnConstraint, ContentArrangement, Result, Table, Width};

const BOOKS: &[[&str; 4]] = &[
    ["A", "Emma", "474", "a matchmaker who errs"],
    ["B", "紅樓夢", "1120", "石頭記, a novel of a great house"],
    ["C", "Кобзар", "260", "songs of a kobza player"],
];

/// Fills the empty table `books`, and prints it twice. First its columns share the width. Then
/// columns have constraints, one of which hides a column. The right edge is straight in terminal
/// columns, although a Chinese character takes two.
pub fn print_books(rt: &HostRuntime, books: &mut Table) -> anyhow::Result<()> {
    fill(books)?;
    println!(rt; "{}", books.to_text()?)?;
    println!(rt; "{}", constrain(books).to_text()?)?;
    Ok(())
}

fn fill(books: &mut Table) -> Result<()> {
    books
        .set_content_arrangement(ContentArrangement::Dynamic)
        .set_width(44)
        .set_header(["Shelf", "Title", "Pages", "About"])?;
    for book in BOOKS {
        books.add_row(book)?;
    }
    Ok(())
}

fn constrain(books: &mut Table) -> &mut Table {
    books.set_constraints([
        ColumnConstraint::Hidden,
        ColumnConstraint::LowerBoundary(Width::Fixed(12)),
        ColumnConstraint::ContentWidth,
        ColumnConstraint::Absolute(Width::Percentage(40)),
    ])
}
