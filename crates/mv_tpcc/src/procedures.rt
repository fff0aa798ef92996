//! The procedures of TPC-C, each with an empty line before it.

ghost use Rattle.std.specs.Prelude.{◌≡◌, ◌++◌, OnOk};
ghost use Rattle.mv_tpcc.specs.Procedures.{new_order, payment, order_status, delivery, stock_level};

use mv_values::list::List;
use mv_values::memory::NoMemory;

/// Adds the procedure that enters an order of several lines.
#[tactic(auto, unfolding(crate::specs::Procedures::new_order))]
pub(crate) fn write_new_order(text: &mut List<u8>) -> Result<(), NoMemory>
    ensures { OnOk result (text.new ≡ text.old ++ new_order) }
{
    text.append(
        b"
CREATE PROCEDURE new_order (:w INT, :d INT, :c INT, :date INT, :lines ROWS (i INT, s INT, q INT))
DECLARE :wtax = 0; DECLARE :dtax = 0; DECLARE :o = 0; DECLARE :disc = 0; DECLARE :last = '';
DECLARE :credit = ''; DECLARE :n = 0; DECLARE :local = 1; DECLARE :price = 0;
DECLARE :iname = ''; DECLARE :idata = ''; DECLARE :sq = 0; DECLARE :sq2 = 0;
DECLARE :sdata = ''; DECLARE :amount = 0; DECLARE :sum = 0; DECLARE :brand = '';
DECLARE :total = 0;
BEGIN
  SELECT w_tax INTO :wtax FROM warehouse WHERE w_id = :w;
  SELECT d_tax INTO :dtax FROM district WHERE d_w_id = :w AND d_id = :d;
  SELECT d_next_o_id INTO :o FROM district WHERE d_w_id = :w AND d_id = :d;
  UPDATE district SET d_next_o_id = d_next_o_id + 1 WHERE d_w_id = :w AND d_id = :d;
  SELECT c_discount, c_last, c_credit INTO :disc, :last, :credit FROM customer
    WHERE c_w_id = :w AND c_d_id = :d AND c_id = :c;
  FOR :l IN :lines DO
    SET :n = :n + 1;
    IF :l.s <> :w THEN SET :local = 0; END IF;
  END FOR;
  INSERT INTO orders VALUES (:w, :d, :o, :c, :date, 0, :n, :local);
  INSERT INTO new_order VALUES (:w, :d, :o);
  SET :n = 0;
  FOR :l IN :lines DO
    SET :n = :n + 1;
    SELECT i_price, i_name, i_data INTO :price, :iname, :idata FROM item
      WHERE i_id = :l.i;
    IF :found = 0 THEN ROLLBACK 'Item number is not valid'; END IF;
    SELECT s_quantity, s_data INTO :sq, :sdata FROM stock
      WHERE s_w_id = :l.s AND s_i_id = :l.i;
    IF :sq >= :l.q + 10 THEN SET :sq2 = :sq - :l.q;
    ELSE SET :sq2 = :sq - :l.q + 91; END IF;
    UPDATE stock SET s_quantity = :sq2, s_ytd = s_ytd + :l.q, s_order_cnt = s_order_cnt + 1
      WHERE s_w_id = :l.s AND s_i_id = :l.i;
    IF :l.s <> :w THEN UPDATE stock SET s_remote_cnt = s_remote_cnt + 1
      WHERE s_w_id = :l.s AND s_i_id = :l.i; END IF;
    SET :amount = :l.q * :price;
    SET :sum = :sum + :amount;
    IF CONTAINS(:idata, 'ORIGINAL') AND CONTAINS(:sdata, 'ORIGINAL')
    THEN SET :brand = 'B'; ELSE SET :brand = 'G'; END IF;
    INSERT INTO order_line VALUES (:w, :d, :o, :n, :l.i, :l.s, 0, :l.q, :amount);
    PRINT :l.i, :iname, :l.q, :sq2, :brand, :price, :amount;
  END FOR;
  SET :total = :sum * (10000 - :disc) * (10000 + :wtax + :dtax) / 100000000;
  PRINT :o, :last, :credit, :disc, :wtax, :dtax, :n, :total;
END;
",
    )
}

/// Adds the procedure that takes a payment of a customer.
#[tactic(auto, unfolding(crate::specs::Procedures::payment))]
pub(crate) fn write_payment(text: &mut List<u8>) -> Result<(), NoMemory>
    ensures { OnOk result (text.new ≡ text.old ++ payment) }
{
    text.append(
        b"
CREATE PROCEDURE payment (:w INT, :d INT, :cw INT, :cd INT, :c INT, :last TEXT(16),
  :amount INT, :date INT, :h INT)
DECLARE :wname = ''; DECLARE :dname = ''; DECLARE :id = 0; DECLARE :n = 0;
DECLARE :credit = ''; DECLARE :data = ''; DECLARE :bal = 0;
BEGIN
  UPDATE warehouse SET w_ytd = w_ytd + :amount WHERE w_id = :w;
  SELECT w_name INTO :wname FROM warehouse WHERE w_id = :w;
  UPDATE district SET d_ytd = d_ytd + :amount WHERE d_w_id = :w AND d_id = :d;
  SELECT d_name INTO :dname FROM district WHERE d_w_id = :w AND d_id = :d;
  SET :id = :c;
  IF :c = 0 THEN
    SELECT COUNT(*) INTO :n FROM customer WHERE c_w_id = :cw AND c_d_id = :cd AND c_last = :last;
    IF :n = 0 THEN ROLLBACK 'no customer'; END IF;
    SELECT c_id INTO :id FROM customer WHERE c_w_id = :cw AND c_d_id = :cd AND c_last = :last
      ORDER BY c_first OFFSET (:n + 1) / 2 - 1;
  END IF;
  UPDATE customer SET c_balance = c_balance - :amount, c_ytd_payment = c_ytd_payment + :amount,
    c_payment_cnt = c_payment_cnt + 1 WHERE c_w_id = :cw AND c_d_id = :cd AND c_id = :id;
  SELECT c_credit, c_data, c_balance INTO :credit, :data, :bal FROM customer
    WHERE c_w_id = :cw AND c_d_id = :cd AND c_id = :id;
  IF :credit = 'BC' THEN
    UPDATE customer SET c_data = LEFT(TEXTOF(:id) || ' ' || TEXTOF(:cd) || ' ' || TEXTOF(:cw)
      || ' ' || TEXTOF(:d) || ' ' || TEXTOF(:w) || ' ' || TEXTOF(:amount) || ' ' || :data, 500)
      WHERE c_w_id = :cw AND c_d_id = :cd AND c_id = :id;
  END IF;
  INSERT INTO history VALUES (:h, :id, :cd, :cw, :d, :w, :date, :amount,
    :wname || '    ' || :dname);
  PRINT :id, :credit, :bal, :amount;
END;
",
    )
}

/// Adds the procedure that tells a customer's last order.
#[tactic(auto, unfolding(crate::specs::Procedures::order_status))]
pub(crate) fn write_order_status(text: &mut List<u8>) -> Result<(), NoMemory>
    ensures { OnOk result (text.new ≡ text.old ++ order_status) }
{
    text.append(
        b"
CREATE PROCEDURE order_status (:w INT, :d INT, :c INT, :last TEXT(16))
DECLARE :id = 0; DECLARE :n = 0; DECLARE :bal = 0; DECLARE :first = ''; DECLARE :lname = '';
DECLARE :o = 0; DECLARE :e = 0; DECLARE :k = 0;
BEGIN
  SET :id = :c;
  IF :c = 0 THEN
    SELECT COUNT(*) INTO :n FROM customer WHERE c_w_id = :w AND c_d_id = :d AND c_last = :last;
    IF :n = 0 THEN ROLLBACK 'no customer'; END IF;
    SELECT c_id INTO :id FROM customer WHERE c_w_id = :w AND c_d_id = :d AND c_last = :last
      ORDER BY c_first OFFSET (:n + 1) / 2 - 1;
  END IF;
  SELECT c_balance, c_first, c_last INTO :bal, :first, :lname FROM customer
    WHERE c_w_id = :w AND c_d_id = :d AND c_id = :id;
  PRINT :id, :bal, :first, :lname;
  SELECT o_id, o_entry_d, o_carrier_id INTO :o, :e, :k FROM orders
    WHERE o_w_id = :w AND o_d_id = :d AND o_c_id = :id ORDER BY o_id DESC;
  IF :found = 1 THEN
    PRINT :o, :e, :k;
    FOR :r IN SELECT ol_i_id, ol_supply_w_id, ol_quantity, ol_amount, ol_delivery_d
      FROM order_line WHERE ol_w_id = :w AND ol_d_id = :d AND ol_o_id = :o DO
      PRINT :r.ol_i_id, :r.ol_supply_w_id, :r.ol_quantity, :r.ol_amount, :r.ol_delivery_d;
    END FOR;
  END IF;
END;
",
    )
}

/// Adds the procedure that delivers the oldest order of each district.
#[tactic(auto, unfolding(crate::specs::Procedures::delivery))]
pub(crate) fn write_delivery(text: &mut List<u8>) -> Result<(), NoMemory>
    ensures { OnOk result (text.new ≡ text.old ++ delivery) }
{
    text.append(
        b"
CREATE PROCEDURE delivery (:w INT, :carrier INT, :date INT)
DECLARE :o = 0; DECLARE :c = 0; DECLARE :sum = 0;
BEGIN
  FOR :r IN SELECT d_id FROM district WHERE d_w_id = :w DO
    SELECT MIN(no_o_id) INTO :o FROM new_order WHERE no_w_id = :w AND no_d_id = :r.d_id;
    IF :found = 1 THEN
      DELETE FROM new_order WHERE no_w_id = :w AND no_d_id = :r.d_id AND no_o_id = :o;
      SELECT o_c_id INTO :c FROM orders WHERE o_w_id = :w AND o_d_id = :r.d_id AND o_id = :o;
      UPDATE orders SET o_carrier_id = :carrier
        WHERE o_w_id = :w AND o_d_id = :r.d_id AND o_id = :o;
      UPDATE order_line SET ol_delivery_d = :date
        WHERE ol_w_id = :w AND ol_d_id = :r.d_id AND ol_o_id = :o;
      SELECT SUM(ol_amount) INTO :sum FROM order_line
        WHERE ol_w_id = :w AND ol_d_id = :r.d_id AND ol_o_id = :o;
      UPDATE customer SET c_balance = c_balance + :sum, c_delivery_cnt = c_delivery_cnt + 1
        WHERE c_w_id = :w AND c_d_id = :r.d_id AND c_id = :c;
      PRINT :r.d_id, :o;
    END IF;
  END FOR;
END;
",
    )
}

/// Adds the procedure that counts the items of the last twenty orders that run short.
#[tactic(auto, unfolding(crate::specs::Procedures::stock_level))]
pub(crate) fn write_stock_level(text: &mut List<u8>) -> Result<(), NoMemory>
    ensures { OnOk result (text.new ≡ text.old ++ stock_level) }
{
    text.append(
        b"
CREATE PROCEDURE stock_level (:w INT, :d INT, :t INT)
DECLARE :o = 0; DECLARE :k = 0; DECLARE :n = 0;
BEGIN
  SELECT d_next_o_id INTO :o FROM district WHERE d_w_id = :w AND d_id = :d;
  FOR :r IN SELECT DISTINCT ol_i_id FROM order_line
    WHERE ol_w_id = :w AND ol_d_id = :d AND ol_o_id >= :o - 20 AND ol_o_id < :o DO
    SELECT COUNT(*) INTO :k FROM stock
      WHERE s_w_id = :w AND s_i_id = :r.ol_i_id AND s_quantity < :t;
    SET :n = :n + :k;
  END FOR;
  PRINT :n;
END;
",
    )
}
