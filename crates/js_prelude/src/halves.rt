//! Numbers of 64 bits: an array of the high half and the low one, both without sign. A boolean says
//! whether numbers have a sign, which then stands in the two's complement. Each call makes one array, the
//! result, and takes at most 34 ticks.

/// Functions and variables, in order.
pub const HALVES: [&'static str; 10] = [
    // The sum.
    "
function $add64($a,$b){
 var $l=$a[1]+$b[1];
 return [$a[0]+$b[0]+($l<4294967296?0:1)>>>0,$l>>>0];
}",
    // The difference.
    "
function $sub64($a,$b){
 return [$a[0]-$b[0]-($a[1]<$b[1]?1:0)>>>0,$a[1]-$b[1]>>>0];
}",
    // The product: of the low halves by digits of 16 bits, and what the high ones add.
    "
function $mul64($a,$b){
 var $x=$a[1];
 var $y=$b[1];
 var $p=$x*($y&65535);
 var $q=$x*($y>>>16);
 var $r=$q&65535;
 var $t=$p+$r*65536;
 var $l=$t>>>0;
 var $h=($t-$l)/4294967296+($q-$r)/65536;
 $h=$h+$x*($b[0]&65535)+($x*($b[0]>>>16)<<16);
 $h=$h+$y*($a[0]&65535)+($y*($a[0]>>>16)<<16);
 return [$h>>>0,$l];
}",
    // The quotient, cut toward zero.
    "
function $div64($a,$b,$s){
 return $long64($a,$b,$s,false);
}",
    // The remainder, with the sign of the dividend.
    "
function $mod64($a,$b,$s){
 return $long64($a,$b,$s,true);
}",
    // The quotient, or where `$m` says so the remainder: at once below 2^53, by digits of 16 bits by a
    // divisor below 2^32, else bit by bit, since the quotient is below 2^32.
    "
function $long64($a,$b,$s,$m){
 var $h=$a[0];
 var $l=$a[1];
 var $c=$b[0];
 var $d=$b[1];
 var $n=$s&&$h>=2147483648;
 var $o=$s&&$c>=2147483648;
 var $q=0;
 var $r=0;
 var $t=0;
 var $i=0;
 if($n){
  $h=($l===0?4294967296:4294967295)-$h>>>0;
  $l=4294967296-$l>>>0;
 }
 if($o){
  $c=($d===0?4294967296:4294967295)-$c>>>0;
  $d=4294967296-$d>>>0;
 }
 if($h<2097152&&$c<2097152){
  $t=$h*4294967296+$l;
  $q=$c*4294967296+$d;
  $r=$t%$q;
  $t=$m?$r:($t-$r)/$q;
  $l=$t>>>0;
  $h=($t-$l)/4294967296;
 }else if($c===0){
  $r=$h%$d;
  $h=$m?0:($h-$r)/$d;
  $t=$r*65536+($l>>>16);
  $r=$t%$d;
  $q=($t-$r)/$d*65536;
  $t=$r*65536+($l&65535);
  $r=$t%$d;
  $l=$m?$r:$q+($t-$r)/$d;
 }else{
  $t=$h;
  while($i<32){
   $r=$r*2+($t>>>31);
   $t=$t*2+($l>>>31)>>>0;
   $l=$l*2>>>0;
   $q=$q*2;
   if($r>$c||$r===$c&&$t>=$d){
    $r=$r-$c-($t<$d?1:0);
    $t=$t-$d>>>0;
    $q=$q+1;
   }
   $i=$i+1;
  }
  $h=$m?$r:0;
  $l=$m?$t:$q;
 }
 if($m?$n:$n!==$o){
  $h=($l===0?4294967296:4294967295)-$h>>>0;
  $l=4294967296-$l>>>0;
 }
 return [$h,$l];
}",
    // A shift to the left.
    "
function $shl64($a,$n){
 if($n===0){
  return [$a[0],$a[1]];
 }
 if($n<32){
  return [($a[0]<<$n|$a[1]>>>32-$n)>>>0,$a[1]<<$n>>>0];
 }
 return [$n<64?$a[1]<<$n-32>>>0:0,0];
}",
    // A shift to the right, which keeps the sign where there is one.
    "
function $shr64($a,$n,$s){
 var $f=$s&&$a[0]>=2147483648?4294967295:0;
 if($n===0){
  return [$a[0],$a[1]];
 }
 if($n<32){
  return [($s?$a[0]>>$n:$a[0]>>>$n)>>>0,($a[0]<<32-$n|$a[1]>>>$n)>>>0];
 }
 if($n<64){
  return [$f,($s?$a[0]>>$n-32:$a[0]>>>$n-32)>>>0];
 }
 return [$f,$f];
}",
    // -1, 0 or 1 where the first is less, equal or greater.
    "
function $cmp64($a,$b,$s){
 var $x=$a[0];
 var $y=$b[0];
 if($x===$y){
  return $a[1]<$b[1]?-1:$a[1]>$b[1]?1:0;
 }
 if($s){
  $x=$x|0;
  $y=$y|0;
 }
 return $x<$y?-1:1;
}",
    // The decimal text.
    "
function $str64($a,$s){
 var $h=$a[0];
 var $l=$a[1];
 var $n=$s&&$h>=2147483648;
 if($n){
  $h=($l===0?4294967296:4294967295)-$h>>>0;
  $l=4294967296-$l>>>0;
 }
 var $c=$h*967296+$l;
 var $r=$c%1000000;
 var $d=$h*4294+($c-$r)/1000000;
 var $t=$d===0?String($r):String($d)+String(1000000+$r).substring(1,7);
 return $n?\"-\"+$t:$t;
}",
];
