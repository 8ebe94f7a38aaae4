//! Laws of hits, as contracts of functions that do nothing.

ghost use Rattle.image_hits.specs.Laws.{RecordsOfImage, RowsOfHits};

/// What gives no rows to a question may be left out of its answer.
pub fn records_without_rows_do_not_matter()
    ensures { RowsOfHits }
{}

/// The records of the sections of an image, as they are read, are those of the sections of its file.
pub fn image_records_are_of_the_file()
    ensures { RecordsOfImage }
{}
