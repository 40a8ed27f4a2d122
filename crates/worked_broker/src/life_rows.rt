mod life;
mod packets;
mod policed_rows;
mod stays;
mod trusted_rows;
